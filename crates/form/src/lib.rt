// The line form as definitions (specs/) and its listing (proofs/); no functions.
#![tactic(auto)]
