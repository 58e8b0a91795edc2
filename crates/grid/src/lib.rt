// Times, frontiers, lists and consolidation: definitions (specs/) and no functions.
#![tactic(auto)]
