// Meaning only: abstract grammars, parse trees, derivations, their order and the list of all of them, in specs/; rows that these
// definitions must give, in proofs/.
#![tactic(auto)]
