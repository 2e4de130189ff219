// The case of 127 children: its memory and its first half.
#![tactic(auto)]
