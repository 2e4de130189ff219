// Opening gives memory that represents program order, and a spawn keeps it so; laws only.
#![tactic(auto)]
