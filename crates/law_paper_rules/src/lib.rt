// The nine rules of the paper's section 4.4 as theorems about memory that represents program order; laws only.
#![tactic(auto)]
