// No code: lists of calls to a station, the ledger, and demand 3 (specs/); their proofs (proofs/).
#![tactic(auto)]
