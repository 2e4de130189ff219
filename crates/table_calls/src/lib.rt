// The table of computed cases.
#![tactic(auto)]
