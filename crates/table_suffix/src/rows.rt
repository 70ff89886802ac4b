// The least costs of the places of a rule by the fit table: from one start, and from all starts of a span.
ghost use Rattle.std.specs.Prelude.{◌+◌, ◌<◌, ◌≤◌, length};
ghost use Rattle.sizes.specs.Sizes.{max_rules, side};
ghost use Rattle.table_cut.specs.Within.{Proper};
ghost use Rattle.table_layout.specs.Layout.{rows_size};
ghost use Rattle.table_suffix.specs.Rows.{WordAt, StartPut, RowsPut};

use super::column::put_column;
use packed::Packed;
use packed_fit::FitTable;
use table_cut::within::Part;
use table_layout::layout::{Full, ROWS_SIZE, Tables};

// The rows of one rule.
pub type Rows = [u16; ROWS_SIZE];

// Which places of rule r fit position a, as a word. After the last position of the span none fits.
fn word_at(fits: &FitTable, r: usize, a: usize, j: usize) -> u32
    requires { (r < max_rules) × (j < side) }
    ensures { WordAt fits.now r a j result }
{
    if a < j {
        return u32::from(fits[sizes::MAX_RULES * a + r]);
    }
    0
}

// Writes the costs over a part, from a to j inside i to j, into the rows that begin at `at`. The costs from the later starts are already
// written.
pub fn put_start(
    p: &Packed,
    r: usize,
    fits: &FitTable,
    tables: &Tables,
    full: &Full,
    part: Part,
    rows: &mut [u16],
    at: usize,
)
    requires { (r < max_rules) × Proper part × (at + rows_size ≤ length rows.old) }
    ensures { StartPut p.now r fits.now tables.now full.now
        part.i part.a part.from part.j at rows.old rows.new }
{
    put_column(
        p,
        r,
        word_at(fits, r, part.a, part.j),
        tables,
        full,
        part,
        rows,
        at,
    );
}

// Writes the costs from all starts, from j down to i, and reads all ends for each.
pub fn put_rows(
    p: &Packed,
    r: usize,
    fits: &FitTable,
    tables: &Tables,
    full: &Full,
    i: usize,
    j: usize,
    rows: &mut Rows,
)
    requires { (r < max_rules) × (i ≤ j) × (j < side) }
    ensures { RowsPut p.now r fits.now tables.now full.now i j rows.new }
{
    for a in (i..j + 1).rev() {
        let part = Part {
            i,
            a,
            from: a + 1,
            j,
        };
        put_start(p, r, fits, tables, full, part, rows, 0);
    }
}
