// The chart's columns: writing one, opening, filling for a whole input, and the bit "complete".
#![tactic(auto)]

mod write;

ghost use Rattle.std.specs.Prelude.{List, ◌++◌, ◌≡◌, ℕ, ◌≤◌, length, drop, replicate};
ghost use Rattle.sizes.specs.Sizes.{cells, max_rules, max_input};
ghost use Rattle.sets.specs.Set.{has as in_set};
ghost use Rattle.chart.specs.Cell.{cell, fits_at};
ghost use Rattle.chart.specs.Column.{opened, filled};
ghost use Rattle.packed.specs.Packed.{cfg_in, Used};
ghost use Rattle.packed_fit.specs.Fit.{FitTold};
ghost use Rattle.fill_empty.specs.Empty.{EmptyTold};
ghost use Rattle.fill_columns.specs.Columns.{column_of, OpenedWith, PositionsTaken};

use fill_empty::span::closure;
use fill_empty::tell;
use fill_words::ends::{put_column, put_columns};
use fill_words::words::ENDS_SIZE;
use packed::Packed;
use packed_fit::{FitTable, table};
use write::column;

// Writes column n of the chart. The columns before it are taken as they are found.
pub fn write_column(p: &Packed, w: &[u8], n: usize, chart: &mut [u32])
    requires { (n ≤ max_input) × (cells ≤ length chart.old) }
    ensures { chart.new ≡ column_of p.now w.now n chart.old }
{
    let rules = packed::rule_count(p);
    let mut lasts = [0u32; sizes::MAX_RULES];
    let mut kinds = [0u32; sizes::MAX_RULES];
    let own = tell(p, rules, &mut lasts, &mut kinds);
    let fits = table(p, w);
    let mut ends = [0u64; ENDS_SIZE];
    let mut reach = [0u64; sizes::MAX_INPUT];
    put_columns(n, chart, &mut ends, &mut reach);
    column(
        p, rules, &fits, n, own, &lasts, &kinds, &ends, &reach, chart,
    );
}

fn clear(chart: &mut [u32])
    requires { cells ≤ length chart.old }
    ensures { chart.new ≡ replicate cells 0 ++ drop cells chart.old }
{
    chart[..sizes::CELLS].fill(0);
}

// Opens the chart. The set of the empty span is own.
fn open_with(own: u32, chart: &mut [u32])
    requires { cells ≤ length chart.old }
    ensures { OpenedWith own chart.old chart.new }
{
    clear(chart);
    chart[0] = own;
}

// Opens the chart.
pub fn open_chart(p: &Packed, chart: &mut [u32])
    requires { cells ≤ length chart.old }
    ensures { chart.new ≡ opened (cfg_in 0 p.now) chart.old }
{
    let mut lasts = [0u32; sizes::MAX_RULES];
    let own = closure(p, packed::rule_count(p), &mut lasts);
    open_with(own, chart);
}

// Takes n positions. What fits them, and what is the same for every column, is given.
fn take_all(
    p: &Packed,
    rules: usize,
    fits: &FitTable,
    n: usize,
    own: u32,
    lasts: &[u32; sizes::MAX_RULES],
    kinds: &[u32; sizes::MAX_RULES],
    chart: &mut [u32],
)
    requires { (rules ≤ max_rules) × Used p.now rules × (n ≤ max_input) × EmptyTold p.now rules own lasts.now kinds.now
        × (cells ≤ length chart.old) }
    ensures { PositionsTaken p.now fits.now n chart.old chart.new }
{
    let mut ends = [0u64; ENDS_SIZE];
    let mut reach = [0u64; sizes::MAX_INPUT];
    for m in 0..n {
        put_column(m, chart, &mut ends, &mut reach);
        column(
            p,
            rules,
            fits,
            m + 1,
            own,
            lasts,
            kinds,
            &ends,
            &reach,
            chart,
        );
    }
}

// Opens the chart, and then takes an input of n bytes, whose fit table is given.
pub fn fill(p: &Packed, fits: &FitTable, n: usize, chart: &mut [u32])
    requires { (n ≤ max_input) × (cells ≤ length chart.old) }
    ensures { (w : List ℕ) → length w ≡ n → FitTold (fits_at w) p.now fits.now n
        → chart.new ≡ filled (cfg_in 0 p.now) w chart.old }
{
    let rules = packed::rule_count(p);
    let mut lasts = [0u32; sizes::MAX_RULES];
    let mut kinds = [0u32; sizes::MAX_RULES];
    let own = tell(p, rules, &mut lasts, &mut kinds);
    open_with(own, chart);
    take_all(p, rules, fits, n, own, &lasts, &kinds, chart);
}

// Whether the start symbol is in the cell of the whole input.
pub fn complete(start: usize, n: usize, chart: &[u32]) -> bool
    requires { (n ≤ max_input) × (cells ≤ length chart.now) }
    ensures { result ≡ in_set start (cell chart.now 0 n) }
{
    packed::contains(chart[n], start)
}
