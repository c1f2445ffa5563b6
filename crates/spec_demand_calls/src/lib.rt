// What the claims over C calls stand on: no code of its own; proofs/Tied holds the contracts of `hyparview_new` and `hyparview_handle` to the definitions that the claims speak of, and controller_c/proofs/Tied those of the exported functions to them.
#![tactic(auto)]
