// No code: the definition of the station (specs/), and what holds of every run of it (proofs/).
#![tactic(auto)]
