// What the listing program prints: specs/, and laws of it: proofs/.
#![tactic(auto)]
