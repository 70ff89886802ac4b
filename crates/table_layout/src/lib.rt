// The enumerator's tables: least numbers of nodes, capped at 513, which means none.
#![tactic(auto)]

pub mod bare;
pub mod layout;
pub mod least;
