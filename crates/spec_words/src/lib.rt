// Lists of words: definitions and laws only.
#![tactic(auto)]
