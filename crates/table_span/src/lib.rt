// One span: its costs that need no numbers of the whole span, its numbers, and with them the rows from its start.
#![tactic(auto)]

ghost use Rattle.std.specs.Prelude.{◌<◌, ◌≤◌};
ghost use Rattle.sizes.specs.Sizes.{max_rules, side};
ghost use Rattle.table_write.specs.Writes.{Nothing};
ghost use Rattle.table_span.specs.Spans.{SpanOpened, SpanPut, EmptyPut};

use fill_reach::Live;
use packed::Packed;
use packed_fit::FitTable;
use table_layout::layout::{Full, Tables};
use table_live::open::Over;
use table_solve::solve;
use table_start::{open_starts, put_starts, put_suffixes};
use table_write::{AllRows, put_bares, put_least};

// Writes the rows from the start of the span and the costs of the rules, without a child over the whole span.
fn open_span(
    p: &Packed,
    rules: usize,
    fits: &FitTable,
    nothing: &Full,
    over: Over,
    tables: &mut Tables,
    rows: &mut AllRows,
    live: &mut Live,
)
    requires { (rules ≤ max_rules) × (over.i < over.j) × (over.j < side) × Nothing nothing.now }
    ensures { SpanOpened p.now rules fits.now over.reach over.i over.j
        tables.old rows.old live.old tables.new rows.new live.new }
{
    open_starts(p, rules, fits, tables, nothing, over, rows, live);
    put_bares(rules, over.i, over.j, rows, tables);
}

// Does a span that is not empty. The spans with the same end and a later start are already done.
pub fn put_span(
    p: &Packed,
    rules: usize,
    fits: &FitTable,
    nothing: &Full,
    over: Over,
    tables: &mut Tables,
    rows: &mut AllRows,
    live: &mut Live,
)
    requires { (rules ≤ max_rules) × (over.i < over.j) × (over.j < side) × Nothing nothing.now }
    ensures { SpanPut p.now rules fits.now over.cell over.reach over.i over.j
        tables.old rows.old live.old tables.new rows.new live.new }
{
    open_span(p, rules, fits, nothing, over, tables, rows, live);
    let full = solve(p, rules, over.cell, 0, tables, over.i, over.j);
    put_least(&full, over.i, over.j, tables);
    put_suffixes(p, rules, fits, tables, &full, over, rows, live);
}

// Does the empty span at j; `empty` has its numbers.
pub fn put_empty(
    p: &Packed,
    rules: usize,
    fits: &FitTable,
    empty: &Full,
    j: usize,
    tables: &mut Tables,
    rows: &mut AllRows,
)
    requires { (rules ≤ max_rules) × (j < side) }
    ensures { EmptyPut p.now rules fits.now empty.now j tables.old rows.old
        tables.new rows.new }
{
    put_least(empty, j, j, tables);
    put_starts(p, rules, fits, tables, empty, j, j, rows);
}
