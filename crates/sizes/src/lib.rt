// The sizes of document 01, for every crate. proofs/Tied.antt shows that each constant is the size of that name in specs/.
#![tactic(auto)]

// The most rules of a grammar (book), the most places of a rule, and the number of nonterminals (kinds).
pub const MAX_RULES: usize = 128;

pub const MAX_PLACES: usize = 8;

pub const NONTERMINALS: usize = 32;

// One more than the number of the last rule: it means that there is no rule.
pub const NO_RULE: usize = MAX_RULES;

// The most bytes of an input (marks of a plate), the number of positions where a span can start or end, and the cells of a chart.
pub const MAX_INPUT: usize = 64;

pub const SIDE: usize = MAX_INPUT + 1;

pub const CELLS: usize = SIDE * SIDE;

// The most nodes of a derivation (parts of a reading); one more, which means that there is none; the numbers of an output.
pub const MAX_NODES: usize = 512;

pub const TOO_MANY: usize = MAX_NODES + 1;

pub const OUTPUT: usize = 2 * MAX_NODES;

// The largest figure that count gives, and the most derivations (readings) that are listed.
pub const MOST: usize = 4096;
