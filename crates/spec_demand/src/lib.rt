// What the claims over calls to the program stand on: no code of its own; proofs/Tied holds the contracts of `new` and `handle`, lent the words and by value, to the definitions that the claims speak of.
#![tactic(auto)]
