// The case of 127 children: its second half.
#![tactic(auto)]
