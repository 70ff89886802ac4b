// A declared grammar as a flat row of 16-bit numbers, the form in which it crosses to C and Rust: its size, reading it and writing it.
// Check 8 refuses the grammar read from a row exactly if the row's own numbers are invalid. It refuses the row of a grammar exactly if it
// refuses the grammar.
#![tactic(auto)]

pub mod read;
pub mod symbol;
pub mod write;

// At which of a rule's numbers its years are: after its left side, its length, its count, and two for each place.
pub const YEARS_AT: usize = 3 + 2 * sizes::MAX_PLACES;

// At which of them its name is: after its two years.
pub const NAME_AT: usize = YEARS_AT + 2;

// How many numbers a rule has, with its name.
pub const RULE_NUMBERS: usize = NAME_AT + names::NAME;

// How many numbers a row has: the start symbol, the count, the nullable depth, and those of each rule.
pub const FLAT_SIZE: usize = 3 + sizes::MAX_RULES * RULE_NUMBERS;

pub type Flat = [u16; FLAT_SIZE];
