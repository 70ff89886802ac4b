// The first derivation (document 01: first reading) below a node; the tables decide every choice.
#![tactic(auto)]

pub mod first;
pub mod open;
