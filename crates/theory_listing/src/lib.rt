// The function that lists the derivations is exact: theorems only, no code.
#![tactic(auto)]
