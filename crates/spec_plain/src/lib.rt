// The plain machine: definitions and laws only.
#![tactic(auto)]
