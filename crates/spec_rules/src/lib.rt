// The memory rules: definitions and laws only.
#![tactic(auto)]
