// No code: every history of at most so many events, in order, and that each stands there exactly one time (document 02, S-13).
#![tactic(auto)]
