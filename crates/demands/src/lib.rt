// Theorems over the decided results, for all inputs: theory only, no code.
#![tactic(auto)]
