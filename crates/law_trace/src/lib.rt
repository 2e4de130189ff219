// The reader of a trace and the printer of its lines are inverse. Statements and proofs; no code.
#![tactic(auto)]
