// All spans: for each end, from the empty span there to the start of the input.
ghost use Rattle.std.specs.Prelude.{◌<◌, ◌≤◌, length};
ghost use Rattle.sizes.specs.Sizes.{max_rules, side, cells};
ghost use Rattle.table_write.specs.Writes.{Nothing};
ghost use Rattle.fill_reach.specs.Reach.{Reaches};
ghost use Rattle.table_all.specs.Spans.{EndDone, EndsPut, Tabulated};

use fill_reach::{Reach, reaches};
use packed::Packed;
use packed_fit::FitTable;
use table_layout::layout::{Full, Tables};
use table_live::open::Over;
use table_rule::alone::fill_alone;
use table_solve::solve;
use table_span::{put_empty, put_span};
use table_write::{ALL_ROWS, AllRows, nothing};

// Does the spans that end at j. The spans that end before j are already done.
fn put_end(
    p: &Packed,
    rules: usize,
    fits: &FitTable,
    chart: &[u32],
    empty: &Full,
    nothing: &Full,
    reach: &Reach,
    j: usize,
    tables: &mut Tables,
    rows: &mut AllRows,
)
    requires { (rules ≤ max_rules) × (cells ≤ length chart.now) × Nothing nothing.now × (j < side)
        × Reaches chart.now j reach.now }
    ensures { EndDone p.now rules fits.now chart.now empty.now j
        tables.old rows.old tables.new rows.new }
{
    put_empty(p, rules, fits, empty, j, tables, rows);
    let mut live = [0u64; sizes::MAX_RULES];
    for i in (0..j).rev() {
        let over = Over {
            i,
            j,
            cell: chart[sizes::SIDE * i + j],
            reach: reach[i],
        };
        put_span(p, rules, fits, nothing, over, tables, rows, &mut live);
    }
}

// Does the spans up to n; `empty` has the numbers of the empty spans.
fn put_ends(
    p: &Packed,
    rules: usize,
    fits: &FitTable,
    chart: &[u32],
    empty: &Full,
    n: usize,
    tables: &mut Tables,
)
    requires { (rules ≤ max_rules) × (cells ≤ length chart.now) × (n < side) }
    ensures { EndsPut p.now rules fits.now chart.now empty.now n
        tables.old tables.new }
{
    let none = nothing();
    let reach = reaches(chart, n);
    let mut rows = [0u16; ALL_ROWS];
    for j in 0..n + 1 {
        put_end(
            p, rules, fits, chart, empty, &none, &reach, j, tables, &mut rows,
        );
    }
}

// Makes the tables from the rules below `rules`, the fit table and the filled chart of an input of n bytes.
pub fn tabulate(
    p: &Packed,
    rules: usize,
    fits: &FitTable,
    chart: &[u32],
    n: usize,
    tables: &mut Tables,
)
    requires { (rules ≤ max_rules) × (n < side) × (cells ≤ length chart.now) }
    ensures { Tabulated p.now rules fits.now chart.now n tables.new }
{
    let empty = solve(p, rules, chart[0], 0, tables, 0, 0);
    fill_alone(p, &empty, tables);
    put_ends(p, rules, fits, chart, &empty, n, tables);
}
