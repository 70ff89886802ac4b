// Spans as bits: the words, and how ends and starts are added to them.
#![tactic(auto)]

pub mod ends;
pub mod starts;
pub mod words;
