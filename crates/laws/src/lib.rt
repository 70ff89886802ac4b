// General laws on Booleans, lists and numbers that several crates cite: theory only, no code.
#![tactic(auto)]
