// What the program overlap prints once all tasks have finished, beside demand 3. Statement and proof; no code.
#![tactic(auto)]
