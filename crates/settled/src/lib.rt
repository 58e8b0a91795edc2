// The rounds of the windows of a call are its rules' (proofs/); no functions.
#![tactic(auto)]
