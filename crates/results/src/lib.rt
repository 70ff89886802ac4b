// Meaning only: what each call answers and leaves, decided from what goes in, in specs/; the tables and demand 3, in proofs/.
#![tactic(auto)]
