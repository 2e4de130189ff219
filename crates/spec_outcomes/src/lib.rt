// The outcome of every core call: definitions and laws only.
#![tactic(auto)]
