// No code: document 02's S-10, no chatter and no lost clock, told from accepted events and output records (specs/); the proofs (proofs/).
#![tactic(auto)]
