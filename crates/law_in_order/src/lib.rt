// What the core answers is what program order says: demand 2; laws only.
#![tactic(auto)]
