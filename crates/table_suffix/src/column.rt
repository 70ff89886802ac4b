// The least costs of the places of a rule from one start: row q, of 65 numbers, has the costs of the places q.. .
ghost use Rattle.std.specs.Prelude.{◌+◌, ◌<◌, ◌≤◌, length};
ghost use Rattle.sizes.specs.Sizes.{max_rules};
ghost use Rattle.table_cut.specs.Within.{Proper};
ghost use Rattle.table_layout.specs.Layout.{rows_size};
ghost use Rattle.table_suffix.specs.Within.{ColumnPut};

use packed::Packed;
use table_cut::suffix::at_end;
use table_cut::within::{Part, suffix_at};
use table_layout::layout::{Full, Tables};

// Writes the costs over a part, from a to j inside i to j, into the rows that begin at `at`. The costs from the later starts are already
// written. The word says which places of rule r have a terminal that fits the byte at a.
pub fn put_column(
    p: &Packed,
    r: usize,
    word: u32,
    tables: &Tables,
    full: &Full,
    part: Part,
    rows: &mut [u16],
    at: usize,
)
    requires { (r < max_rules) × Proper part × (at + rows_size ≤ length rows.old) }
    ensures { ColumnPut p.now r word tables.now full.now part.i part.a part.from part.j at
        rows.old rows.new }
{
    let count = packed::count(p, r);
    let a = part.a;
    rows[at + sizes::SIDE * count + a] = at_end(a, part.j);
    for q in (0..count).rev() {
        rows[at + sizes::SIDE * q + a] = suffix_at(
            p,
            r,
            q,
            packed::contains(word, q),
            tables,
            full,
            part,
            rows,
            at + sizes::SIDE * (q + 1),
        );
    }
}
