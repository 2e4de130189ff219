// Determinacy, termination and stability of any order of calls, and what every memory of a job's run has; laws only.
#![tactic(auto)]
