// The words of memory represent program order: the invariant that every call keeps; laws only.
#![tactic(auto)]
