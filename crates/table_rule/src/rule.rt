// The cost of a rule over a nonempty span, the node included: the least with and without a child over the whole span.
ghost use Rattle.std.specs.Prelude.{◌≡◌, ◌+◌, ◌<◌, min};
ghost use Rattle.sizes.specs.Sizes.{max_rules, max_places, too_many};
ghost use Rattle.packed.specs.Packed.{value_in};
ghost use Rattle.table_layout.specs.Layout.{full_in};
ghost use Rattle.table_rule.specs.Rule.{OfRule};

use packed::Packed;
use table_layout::layout::{ALONES, Full, Tables, full_of};
use table_layout::least::{TOO_MANY, capped, lower};

// The cost of rule r with a child over the whole span at place q; `beside` is the cost of all but that child. It is 513 if the place cannot
// have such a child, for example a terminal. Then the place is not read.
fn through(p: &Packed, r: usize, q: usize, full: &Full, beside: u16) -> u16
    requires { (r < max_rules) × (q < max_places) }
    ensures { result ≡ min (beside + full_in full.now (value_in p.now r q)) too_many }
{
    if beside < TOO_MANY {
        return capped(beside, full_of(full, packed::value(p, r, q)));
    }
    TOO_MANY
}

// The cost of rule r, from its cost without a child over the whole span and from its numbers that `alone_at` made.
pub fn rule_cost(p: &Packed, r: usize, full: &Full, tables: &Tables, bare: u16) -> u16
    requires { r < max_rules }
    ensures { OfRule p.now r full.now tables.now bare result }
{
    let count = packed::count(p, r);
    let mut best = bare;
    for q in 0..count {
        best = lower(
            best,
            through(p, r, q, full, tables[ALONES + sizes::MAX_PLACES * r + q]),
        );
    }
    best
}
