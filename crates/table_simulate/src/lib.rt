// Simulations of jobs with workers, computed. Laws only.
#![tactic(auto)]
