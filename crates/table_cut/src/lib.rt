// The least cost of the places of a rule from one place on, over a span, from the costs of the places after it.
#![tactic(auto)]

pub mod suffix;
pub mod within;
