// The bounds on a simulation's ticks, by the work and by the times of the timed line; laws only.
#![tactic(auto)]
