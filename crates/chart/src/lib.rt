// Meaning only: what the cells of a chart hold, in specs/, and the theorems about it, in proofs/.
#![tactic(auto)]
