// A grammar whose rules are rules of another one: theorems only, no code.
#![tactic(auto)]
