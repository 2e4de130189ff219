// The layout of the core's memory: definitions and laws only.
#![tactic(auto)]
