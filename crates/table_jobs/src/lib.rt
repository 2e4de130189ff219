// Runs of jobs, computed on the runner's outcomes. Laws only.
#![tactic(auto)]
