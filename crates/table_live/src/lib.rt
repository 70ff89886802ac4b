// The rows of one rule from one start. Most rules cost too much there: which starts are live, and when a rule is passed over.
#![tactic(auto)]

pub mod mark;
pub mod open;
