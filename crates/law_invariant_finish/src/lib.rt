// Sync and finish keep the invariant: the words of memory still represent program order; laws only.
#![tactic(auto)]
