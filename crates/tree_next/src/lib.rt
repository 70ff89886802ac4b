// The derivation after the one in a buffer (document 01: next reading), once the tables are made.
#![tactic(auto)]

mod child;
mod last;
pub mod next;
mod row;
mod turned;
