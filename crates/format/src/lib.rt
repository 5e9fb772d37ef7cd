// Document 01 as definitions (specs/) and their laws (proofs/). No code: what runs is proved against these in the crates above.
#![tactic(auto)]
