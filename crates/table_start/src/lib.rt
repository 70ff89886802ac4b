// The rows from one start, for all rules, for those that are not passed over, or for those that the numbers of the whole span change.
#![tactic(auto)]

ghost use Rattle.std.specs.Prelude.{false, ◌≡◌, ◌<◌, ◌≤◌};
ghost use Rattle.sizes.specs.Sizes.{max_rules, side};
ghost use Rattle.table_write.specs.Writes.{Nothing};
ghost use Rattle.table_start.specs.Starts.{Untouched, StartsPut, StartsOpened, SuffixesPut};

use fill_reach::Live;
use packed::Packed;
use packed_fit::FitTable;
use table_cut::within::Part;
use table_layout::layout::{Full, ROWS_SIZE, Tables};
use table_live::open::{Over, open_rule, put_rule};
use table_suffix::rows::put_start;
use table_write::AllRows;

// Writes the costs from i to j for every rule. The costs from the later starts are already written.
pub fn put_starts(
    p: &Packed,
    rules: usize,
    fits: &FitTable,
    tables: &Tables,
    full: &Full,
    i: usize,
    j: usize,
    rows: &mut AllRows,
)
    requires { (rules ≤ max_rules) × (i ≤ j) × (j < side) }
    ensures { StartsPut p.now rules fits.now tables.now full.now i j
        rows.old rows.new }
{
    let part = Part {
        i,
        a: i,
        from: i + 1,
        j,
    };
    for r in 0..rules {
        put_start(p, r, fits, tables, full, part, rows, ROWS_SIZE * r);
    }
}

// Writes the costs from i to j without a child over the whole span. A rule is passed over if no piece from i ends at
// one of its live starts.
pub fn open_starts(
    p: &Packed,
    rules: usize,
    fits: &FitTable,
    tables: &Tables,
    nothing: &Full,
    over: Over,
    rows: &mut AllRows,
    live: &mut Live,
)
    requires { (rules ≤ max_rules) × (over.i < over.j) × (over.j < side) × Nothing nothing.now }
    ensures { StartsOpened p.now rules fits.now tables.now nothing.now over.reach over.i
        over.j rows.old live.old rows.new live.new }
{
    for r in 0..rules {
        open_rule(p, r, fits, tables, nothing, over, rows, live);
    }
}

// Whether a place of rule r has a nonterminal of the cell.
fn touched(p: &Packed, r: usize, cell: u32) -> bool
    requires { r < max_rules }
    ensures { result ≡ false → Untouched p.now r cell }
{
    let count = packed::count(p, r);
    for q in 0..count {
        if packed::is_nonterminal(p, r, q) {
            if packed::contains(cell, packed::value(p, r, q)) {
                return true;
            }
        }
    }
    false
}

// Writes the costs from i to j for the rules that have a nonterminal of the cell in a place.
pub fn put_suffixes(
    p: &Packed,
    rules: usize,
    fits: &FitTable,
    tables: &Tables,
    full: &Full,
    over: Over,
    rows: &mut AllRows,
    live: &mut Live,
)
    requires { (rules ≤ max_rules) × (over.i < over.j) × (over.j < side) }
    ensures { SuffixesPut p.now rules fits.now tables.now full.now over.cell over.reach
        over.i over.j rows.old live.old rows.new live.new }
{
    if over.cell == 0 {
        return;
    }
    for r in 0..rules {
        if touched(p, r, over.cell) {
            put_rule(p, r, fits, tables, full, over, rows, live);
        }
    }
}
