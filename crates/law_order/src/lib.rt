// Program order: what the list of steps and spots means; laws only.
#![tactic(auto)]
