// The steps of the listing program after the first one.
#![tactic(auto)]

pub mod step;
