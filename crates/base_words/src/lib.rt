// No code: words that are cut into sections (specs/), and what a stored section or number leaves (proofs/).
#![tactic(auto)]
