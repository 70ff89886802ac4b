// The laws by which the first derivation and the one after a given one are found without backtracking: theory only, no code.
#![tactic(auto)]
