// The task tree in the words of memory is the one of program order; laws only.
#![tactic(auto)]
