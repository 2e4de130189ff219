// The memory test of views and segments as a list of events: definitions and laws, no code.
#![tactic(auto)]
