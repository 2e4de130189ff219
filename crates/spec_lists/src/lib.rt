// Lists of numbers: definitions and laws only.
#![tactic(auto)]
