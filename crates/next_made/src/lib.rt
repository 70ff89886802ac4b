// Next, once the tables are made: the derivation after the one in a buffer, and the one after an offered derivation.
#![tactic(auto)]

pub mod offered;
pub mod successor;
