// The values of a run are words of 32 bits. Statements and proofs; no code.
#![tactic(auto)]
