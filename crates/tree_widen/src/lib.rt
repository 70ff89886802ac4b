// The derivation after the one in a buffer, if the places after a node have their last row: the first row of those places after a node that
// has moved, or a wider node.
#![tactic(auto)]

pub mod moved;
mod widen;
