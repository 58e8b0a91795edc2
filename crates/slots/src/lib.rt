// The rounds of a window, key by key.
#![tactic(auto)]
