// What a rule costs over a span, from the numbers of the span and from the tables.
#![tactic(auto)]

pub mod alone;
pub mod rule;
