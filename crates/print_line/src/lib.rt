// The lines of the listing, written into a lent buffer.
#![tactic(auto)]

pub mod fixed;
pub mod line;

// The byte at the end of each line.
pub const NEWLINE: u8 = 10;

// Every line fits a buffer of this many bytes.
pub const LINE: usize = 8192;
