// How deep the plain machine's stack grows on a job that comes to its end on the core; laws only.
#![tactic(auto)]
