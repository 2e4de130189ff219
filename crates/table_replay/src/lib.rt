// Replays of document 01's run in full, computed. Laws only.
#![tactic(auto)]
