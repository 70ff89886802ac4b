// The plain machine of taking bytes, setting points and returning to them: definitions and theorems, no code.
#![tactic(auto)]
