// The starred cases of document 01: one table, one test; laws only.
#![tactic(auto)]
