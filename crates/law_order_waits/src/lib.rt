// Program order and the waits: why no other popper stands before a task that may pop; laws only.
#![tactic(auto)]
