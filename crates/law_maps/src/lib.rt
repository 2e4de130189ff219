// What the words of memory mean as views, chains and values, and what each operation on words does to that; laws only.
#![tactic(auto)]
