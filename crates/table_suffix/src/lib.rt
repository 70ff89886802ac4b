// The least costs of the places of a rule, from each place on and from each start.
#![tactic(auto)]

pub mod column;
pub mod rows;
