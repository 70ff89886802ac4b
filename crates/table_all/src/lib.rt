// Makes the enumerator's tables, all in one array: end by end, and for each end from the last start to the first.
#![tactic(auto)]

pub mod ends;
pub mod made;
