// The walk over an offered row of numbers, two for each node in preorder, and whether the whole row is a derivation.
#![tactic(auto)]

pub mod derivation;
pub mod offered;
pub mod walk;
