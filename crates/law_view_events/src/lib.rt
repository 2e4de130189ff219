// The memory test over events says what the test of the rules says of views and segments: laws, no code.
#![tactic(auto)]
