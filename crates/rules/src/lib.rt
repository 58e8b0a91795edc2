// Document 01 as definitions (specs/) and the worked cases (proofs/); no functions.
#![tactic(auto)]
