// Reading a derivation in a buffer: what comes at a place of a rule, and the last node of a row.
#![tactic(auto)]

pub mod look;
pub mod reach;
