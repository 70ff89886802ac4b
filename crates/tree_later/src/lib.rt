// The derivation after the one in a buffer, if the row below the node is the last one: a later rule. The frame of a node holds its costs,
// and is made only when it is needed.
#![tactic(auto)]

pub mod frame;
pub mod later;
