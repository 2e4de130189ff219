// Cases: calls and the answers that they must get.
#![tactic(auto)]
