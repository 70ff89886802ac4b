// The choices of a derivation, first or next, each decided by costs: which rule, which end, and what comes next at a place of a rule.
#![tactic(auto)]

pub mod ends;
pub mod look;
pub mod rule;
