// The live starts of each rule up to one end: those from which places after the rule's first cost less than 513.
ghost use Rattle.std.specs.Prelude.{false, ◌≡◌, ◌<◌};
ghost use Rattle.sizes.specs.Sizes.{max_input, max_rules, side};
ghost use Rattle.table_live.specs.Live.{Silent, Marked};

use fill_reach::Live;
use packed::Packed;
use table_layout::layout::ROWS_SIZE;
use table_layout::least::TOO_MANY;
use table_write::AllRows;

// Whether a suffix of rule r after its first place costs less than 513 from i on.
fn stands(p: &Packed, r: usize, i: usize, rows: &AllRows) -> bool
    requires { (r < max_rules) × (i < side) }
    ensures { result ≡ false → Silent p.now r i rows.now }
{
    let count = packed::count(p, r);
    for q in (1..count + 1).rev() {
        if rows[ROWS_SIZE * r + sizes::SIDE * q + i] < TOO_MANY {
            return true;
        }
    }
    false
}

// Adds i to the live starts of rule r if i is one.
pub fn mark(p: &Packed, r: usize, i: usize, rows: &AllRows, live: &mut Live)
    requires { (r < max_rules) × (i < max_input) }
    ensures { Marked p.now r i rows.now live.old live.new }
{
    if stands(p, r, i, rows) {
        live[r] = sets::wide::with(live[r], i);
    }
}
