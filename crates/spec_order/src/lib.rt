// Program order: definitions and laws only.
#![tactic(auto)]
