// The memory test says true exactly where the memory rules hold; laws only.
#![tactic(auto)]
