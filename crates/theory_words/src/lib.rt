// The text of a derivation, and the names of rules in it: definitions and theorems, no code.
#![tactic(auto)]
