// The span in one pass is the longest chain; laws only.
#![tactic(auto)]
