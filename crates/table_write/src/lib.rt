// What is written into the tables for one span: its numbers, and the costs of rules without a child over the whole span.
#![tactic(auto)]

ghost use Rattle.std.specs.Prelude.{◌<◌, ◌≤◌};
ghost use Rattle.sizes.specs.Sizes.{max_rules, side};
ghost use Rattle.table_write.specs.Writes.{Nothing, LeastPut, BaresPut};

use table_layout::bare::bare_at;
use table_layout::layout::{Full, ROWS_SIZE, Tables};
use table_layout::least::TOO_MANY;
use table_rule::alone::one_more;

// The rows of all rules, rule by rule: the least costs of its places from each place on, from each start up to one end.
pub const ALL_ROWS: usize = ROWS_SIZE * sizes::MAX_RULES;

pub type AllRows = [u16; ALL_ROWS];

// The numbers of a span that no nonterminal covers.
pub fn nothing() -> Full
    ensures { Nothing result }
{
    [TOO_MANY; sizes::NONTERMINALS]
}

// Writes the numbers of the span from i to j into the least table.
pub fn put_least(full: &Full, i: usize, j: usize, tables: &mut Tables)
    requires { (i < side) × (j < side) }
    ensures { LeastPut full.now i j tables.old tables.new }
{
    for (k, cost) in full.iter().enumerate() {
        tables[sizes::CELLS * k + sizes::SIDE * i + j] = *cost;
    }
}

// Writes what each rule costs over the span from i to j without a child over the whole span: one more than its places cost.
pub fn put_bares(rules: usize, i: usize, j: usize, rows: &AllRows, tables: &mut Tables)
    requires { (rules ≤ max_rules) × (i < j) × (j < side) }
    ensures { BaresPut rules i j rows.now tables.old tables.new }
{
    for r in 0..rules {
        tables[bare_at(i, j, r)] = one_more(usize::from(rows[ROWS_SIZE * r + i]));
    }
}
