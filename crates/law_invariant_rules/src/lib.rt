// Memory that represents program order passes the memory test; laws only.
#![tactic(auto)]
