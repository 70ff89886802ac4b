// The costs of one rule from i to j without a child over the whole span. If no piece from i ends at a live start, they are 513 for all its
// places.
ghost use Rattle.std.specs.Prelude.{◌<◌};
ghost use Rattle.sizes.specs.Sizes.{max_rules, side};
ghost use Rattle.table_write.specs.Writes.{Nothing};
ghost use Rattle.table_live.specs.Live.{NonePut, FirstEnd, RuleRowsPut};

use super::mark::mark;
use fill_reach::{Live, can_begin};
use packed::Packed;
use packed_fit::FitTable;
use table_cut::within::Part;
use table_layout::layout::{Full, ROWS_SIZE, Tables};
use table_layout::least::TOO_MANY;
use table_suffix::rows::put_start;
use table_write::AllRows;

// A span from i to j, with what the chart says of it: its cell, and the ends of nonterminals that start at i.
#[derive(Clone, Copy)]
pub struct Over {
    pub i: usize,
    pub j: usize,
    pub cell: u32,
    pub reach: u64,
}

// Writes 513 for all places of rule r from the start i.
fn put_none(p: &Packed, r: usize, i: usize, rows: &mut AllRows)
    requires { (r < max_rules) × (i < side) }
    ensures { NonePut p.now r i rows.old rows.new }
{
    let count = packed::count(p, r);
    for q in 0..=count {
        rows[ROWS_SIZE * r + sizes::SIDE * q + i] = TOO_MANY;
    }
}

// An end after i such that no end between i and it is in both sets.
fn first_end(reach: u64, live: u64, i: usize) -> usize
    requires { i < side }
    ensures { FirstEnd i reach live result }
{
    let first = sets::wide::first(sets::wide::common(reach, live));
    if i < first { first } else { i + 1 }
}

// Writes the costs of rule r over the span, and adds i to its live starts if i is one. The costs from the later starts are already written.
// The sums begin at the first end in `reach` that is a live start, since the ends before it cost too much.
pub fn put_rule(
    p: &Packed,
    r: usize,
    fits: &FitTable,
    tables: &Tables,
    full: &Full,
    over: Over,
    rows: &mut AllRows,
    live: &mut Live,
)
    requires { (r < max_rules) × (over.i < over.j) × (over.j < side) }
    ensures { RuleRowsPut p.now r fits.now tables.now full.now over.reach over.i over.j
        rows.old live.old rows.new live.new }
{
    let i = over.i;
    let j = over.j;
    let from = first_end(over.reach, live[r], i);
    let part = Part { i, a: i, from, j };
    put_start(p, r, fits, tables, full, part, rows, ROWS_SIZE * r);
    mark(p, r, i, rows, live);
}

// Does the same if nothing covers the whole span. A rule that is passed over gets 513 everywhere.
pub fn open_rule(
    p: &Packed,
    r: usize,
    fits: &FitTable,
    tables: &Tables,
    nothing: &Full,
    over: Over,
    rows: &mut AllRows,
    live: &mut Live,
)
    requires { (r < max_rules) × (over.i < over.j) × (over.j < side) × Nothing nothing.now }
    ensures { RuleRowsPut p.now r fits.now tables.now nothing.now over.reach over.i over.j
        rows.old live.old rows.new live.new }
{
    if can_begin(over.i, over.j, over.reach, live[r]) {
        put_rule(p, r, fits, tables, nothing, over, rows, live);
    } else {
        put_none(p, r, over.i, rows);
    }
}
