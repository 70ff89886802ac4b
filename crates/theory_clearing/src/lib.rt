// Clearing the columns of a chart from one on: definitions and theorems, no code.
#![tactic(auto)]
