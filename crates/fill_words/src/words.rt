// The words of spans as bits.

// One word for each start and nonterminal: the set of the ends.
pub const ENDS_SIZE: usize = sizes::MAX_INPUT * sizes::NONTERMINALS;

pub type Ends = [u64; ENDS_SIZE];

// One word for each rule and place: the set of the starts.
pub const STARTS_SIZE: usize = sizes::MAX_RULES * sizes::MAX_PLACES;

pub type Starts = [u64; STARTS_SIZE];
