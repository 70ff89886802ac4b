// One column of the chart, written cell by cell from the last start down, with spans as bits.
ghost use Rattle.std.specs.Prelude.{◌≡◌, ◌<◌, ◌≤◌, length};
ghost use Rattle.sizes.specs.Sizes.{cells, max_rules, max_input};
ghost use Rattle.packed.specs.Packed.{Used};
ghost use Rattle.fill_empty.specs.Empty.{KindsAll, EmptyTold};
ghost use Rattle.fill_columns.specs.Columns.{CellWritten, LowerWritten, ColumnWritten};

use fill_closure::passes::closure;
use fill_inner::rules::begin_all;
use fill_reach::{Live, Reach};
use fill_words::starts::put_flags;
use fill_words::words::{Ends, STARTS_SIZE, Starts};
use packed::Packed;
use packed_fit::FitTable;

// Writes the cell (i, n), after those of the later starts. What insides, flags and made hold before does not matter.
fn close_cell(
    p: &Packed,
    rules: usize,
    fits: &FitTable,
    i: usize,
    n: usize,
    ends: &Ends,
    reach: &Reach,
    lasts: &[u32; sizes::MAX_RULES],
    kinds: &[u32; sizes::MAX_RULES],
    chart: &mut [u32],
    starts: &mut Starts,
    live: &mut Live,
    insides: &mut [u32; sizes::MAX_RULES],
    flags: &mut [u32; sizes::MAX_RULES],
    made: &mut [u32; sizes::MAX_RULES],
)
    requires { (rules ≤ max_rules) × Used p.now rules × (i < n) × (n ≤ max_input) × KindsAll p.now rules lasts.now kinds.now
        × (cells ≤ length chart.old) }
    ensures { CellWritten p.now fits.now rules n i ends.now reach.now lasts.now
        chart.old starts.old live.old chart.new starts.new live.new
        × (length insides.new ≡ max_rules) × (length flags.new ≡ max_rules) × (length made.new ≡ max_rules) }
{
    begin_all(
        p, rules, fits, i, n, ends, starts, reach[i], live, lasts, insides,
    );
    let own = closure(
        p,
        rules,
        chart[sizes::SIDE * i + i],
        insides,
        lasts,
        kinds,
        flags,
        made,
    );
    put_flags(p, rules, i, flags, starts, live);
    chart[sizes::SIDE * i + n] = own;
}

// Writes the cells of column n before the last, which is already written.
fn lower_cells(
    p: &Packed,
    rules: usize,
    fits: &FitTable,
    n: usize,
    ends: &Ends,
    reach: &Reach,
    lasts: &[u32; sizes::MAX_RULES],
    kinds: &[u32; sizes::MAX_RULES],
    chart: &mut [u32],
)
    requires { (rules ≤ max_rules) × Used p.now rules × (n ≤ max_input) × KindsAll p.now rules lasts.now kinds.now
        × (cells ≤ length chart.old) }
    ensures { LowerWritten p.now fits.now rules n ends.now reach.now lasts.now
        chart.old chart.new }
{
    let mut starts = [0u64; STARTS_SIZE];
    let mut live = [0u64; sizes::MAX_RULES];
    let mut insides = [0u32; sizes::MAX_RULES];
    let mut flags = [0u32; sizes::MAX_RULES];
    let mut made = [0u32; sizes::MAX_RULES];
    for i in (0..n).rev() {
        close_cell(
            p,
            rules,
            fits,
            i,
            n,
            ends,
            reach,
            lasts,
            kinds,
            chart,
            &mut starts,
            &mut live,
            &mut insides,
            &mut flags,
            &mut made,
        );
    }
}

// Writes column n. What is the same for every column is given, and so are the fit table and the ends of the columns before n.
pub fn column(
    p: &Packed,
    rules: usize,
    fits: &FitTable,
    n: usize,
    own: u32,
    lasts: &[u32; sizes::MAX_RULES],
    kinds: &[u32; sizes::MAX_RULES],
    ends: &Ends,
    reach: &Reach,
    chart: &mut [u32],
)
    requires { (rules ≤ max_rules) × Used p.now rules × (n ≤ max_input) × EmptyTold p.now rules own lasts.now kinds.now
        × (cells ≤ length chart.old) }
    ensures { ColumnWritten p.now fits.now n ends.now reach.now chart.old
        chart.new }
{
    chart[sizes::SIDE * n + n] = own;
    lower_cells(p, rules, fits, n, ends, reach, lasts, kinds, chart);
}
