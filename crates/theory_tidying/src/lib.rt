// Clearing what is unused in a grammar: definitions and theorems, no code.
#![tactic(auto)]
