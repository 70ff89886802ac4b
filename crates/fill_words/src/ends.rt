// The ends of spans: those of one cell and those of a column of the chart are added.
ghost use Rattle.std.specs.Prelude.{◌+◌, ◌<◌, ◌≤◌, length};
ghost use Rattle.sizes.specs.Sizes.{cells, max_input};
ghost use Rattle.fill_words.specs.Ends.{EndAdded, CellPut, ColumnsPut};

use super::words::Ends;
use fill_reach::Reach;

// Adds b to the ends of spans from i, for each nonterminal in the word.
fn put_members(i: usize, b: usize, word: u32, ends: &mut Ends)
    requires { (i < max_input) × (b < max_input) }
    ensures { EndAdded i b word ends.old ends.new }
{
    let mut rest = word;
    while rest != 0 {
        let k = sets::lowest(rest);
        ends[sizes::NONTERMINALS * i + k] = sets::wide::with(ends[sizes::NONTERMINALS * i + k], b);
        rest = sets::without(rest, k);
    }
}

// The same, and adds b to the reach of i.
fn put(i: usize, b: usize, word: u32, ends: &mut Ends, reach: &mut Reach)
    requires { (i < max_input) × (b < max_input) }
    ensures { CellPut i b word ends.old reach.old ends.new reach.new }
{
    if word != 0 {
        reach[i] = sets::wide::with(reach[i], b);
        put_members(i, b, word, ends);
    }
}

// Adds the ends of the cells of column b.
pub fn put_column(b: usize, chart: &[u32], ends: &mut Ends, reach: &mut Reach)
    requires { (b < max_input) × (cells ≤ length chart.now) }
    ensures { ColumnsPut chart.now b (b + 1)
        ends.old reach.old ends.new reach.new }
{
    for i in 0..b {
        put(i, b, chart[sizes::SIDE * i + b], ends, reach);
    }
}

// Adds the ends of the cells of the columns before n.
pub fn put_columns(n: usize, chart: &[u32], ends: &mut Ends, reach: &mut Reach)
    requires { (n ≤ max_input) × (cells ≤ length chart.now) }
    ensures { ColumnsPut chart.now 0 n
        ends.old reach.old ends.new reach.new }
{
    for b in 0..n {
        put_column(b, chart, ends, reach);
    }
}
