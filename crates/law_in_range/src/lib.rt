// What the memory test promises to the calls: laws only.
#![tactic(auto)]
