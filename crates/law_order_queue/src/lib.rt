// One queue along program order: what a task that pops finds; laws only.
#![tactic(auto)]
