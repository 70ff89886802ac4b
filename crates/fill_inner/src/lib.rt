// Where inner cuts of a span begin, at one place of a rule and for every rule. The first piece of an inner cut lies inside the span.
#![tactic(auto)]

pub mod places;
pub mod rules;
