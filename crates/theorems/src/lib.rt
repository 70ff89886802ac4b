// The final theorems, each proved by citation: proofs/Theorems.antt.
#![tactic(auto)]
