// A trace of a run agrees, and only a trace of a run. Statements and proofs; no code.
#![tactic(auto)]
