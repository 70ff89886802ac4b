// Where the costs are stored, all in one array. The least table comes first: a number for each nonterminal, start and end. The end is the
// last index, so that a minimum over ends reads memory in order.
ghost use Rattle.std.specs.Prelude.{◌≡◌, ◌<◌};
ghost use Rattle.sizes.specs.Sizes.{side};
ghost use Rattle.table_layout.specs.Layout.{cost_in, full_in};

use super::least::TOO_MANY;

pub const LEAST_SIZE: usize = sizes::NONTERMINALS * sizes::CELLS;

// The numbers of one span: one for each nonterminal.
pub type Full = [u16; sizes::NONTERMINALS];

// After the least table: what a node costs in addition to a child that covers all, one number for each rule and place.
pub const ALONES: usize = LEAST_SIZE;

// After them: what a rule costs without a child over the whole span, for each span that is not empty one number for each rule. Two starts
// share a row, so that there are half as many rows as starts.
pub const BARES: usize = ALONES + sizes::MAX_RULES * sizes::MAX_PLACES;

pub const TABLES_SIZE: usize = BARES + sizes::MAX_INPUT / 2 * sizes::SIDE * sizes::MAX_RULES;

pub type Tables = [u16; TABLES_SIZE];

// The rows of one rule: one for each place and one after the last, with a number for each start.
pub const ROWS_SIZE: usize = sizes::SIDE * (sizes::MAX_PLACES + 1);

// The cost of the nonterminal k from a to b: 513 if k is 32 or above.
pub fn cost(tables: &Tables, k: usize, a: usize, b: usize) -> u16
    requires { (a < side) × (b < side) }
    ensures { result ≡ cost_in tables.now k a b }
{
    if k < sizes::NONTERMINALS {
        return tables[sizes::CELLS * k + sizes::SIDE * a + b];
    }
    TOO_MANY
}

// The cost of the nonterminal k, from the numbers of one span: 513 if k is 32 or above.
pub fn full_of(full: &Full, k: usize) -> u16
    ensures { result ≡ full_in full.now k }
{
    if k < sizes::NONTERMINALS {
        return full[k];
    }
    TOO_MANY
}
