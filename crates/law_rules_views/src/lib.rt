// Views: the test and the rules say the same; laws only.
#![tactic(auto)]
