// The views of one queue and the chains of segments between the spots; laws only.
#![tactic(auto)]
