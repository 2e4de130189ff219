// The tree of tasks: definitions and laws only.
#![tactic(auto)]
