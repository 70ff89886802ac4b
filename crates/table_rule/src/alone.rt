// What a rule's places cost over no byte: all of them, and all but the one whose child covers the whole span.
ghost use Rattle.std.specs.Prelude.{◌≡◌, suc, ◌+◌, ◌*◌, ◌<◌, min};
ghost use Rattle.sizes.specs.Sizes.{max_rules, max_places, too_many};
ghost use Rattle.theory_costs.specs.Rule.{single, together, alone as alone_of};
ghost use Rattle.packed.specs.Packed.{symbol_in, places_in};
ghost use Rattle.table_layout.specs.Layout.{full_in};
ghost use Rattle.table_rule.specs.Rule.{AlonePut, AlonesFilled};

use packed::Packed;
use table_layout::layout::{ALONES, Full, Tables, full_of};
use table_layout::least::TOO_MANY;

// One more than a number of nodes, or 513 if that is less.
pub fn one_more(n: usize) -> u16
    ensures { result ≡ min (suc n) too_many }
{
    if n < sizes::MAX_NODES {
        (n + 1) as u16
    } else {
        TOO_MANY
    }
}

// The cost of place q of rule r over no byte.
fn single_at(p: &Packed, r: usize, q: usize, full: &Full) -> usize
    requires { (r < max_rules) × (q < max_places) }
    ensures { (result ≡ single (full_in full.now) (symbol_in p.now r q)) × (result < 65536) }
{
    if packed::is_nonterminal(p, r, q) {
        return usize::from(full_of(full, packed::value(p, r, q)));
    }
    sizes::TOO_MANY
}

// The cost of all places of rule r over no byte, not capped.
pub fn total(p: &Packed, r: usize, full: &Full) -> usize
    requires { r < max_rules }
    ensures { result ≡ together (full_in full.now) (places_in p.now r) }
{
    let count = packed::count(p, r);
    let mut sum = 0;
    for q in 0..count {
        sum += single_at(p, r, q, full);
    }
    sum
}

// The cost of rule r over no byte, the node included.
pub fn rule_empty(p: &Packed, r: usize, full: &Full) -> u16
    requires { r < max_rules }
    ensures { result ≡ min (suc (together (full_in full.now) (places_in p.now r))) too_many }
{
    one_more(total(p, r, full))
}

// What a node of rule r costs in addition to its child at place q, if that child covers all. `sum` is the cost of all places over no byte.
pub fn alone_at(p: &Packed, r: usize, q: usize, empty: &Full, sum: usize) -> u16
    requires { (r < max_rules) × (q < max_places) × (sum ≡ together (full_in empty.now) (places_in p.now r)) }
    ensures { result ≡ alone_of (full_in empty.now) (places_in p.now r) q }
{
    if q < packed::count(p, r) {
        if packed::is_nonterminal(p, r, q) {
            let own = usize::from(full_of(empty, packed::value(p, r, q)));
            return one_more(sum - own);
        }
    }
    TOO_MANY
}

// Writes what `alone_at` says of each place of rule r.
fn put_alone(p: &Packed, r: usize, empty: &Full, tables: &mut Tables)
    requires { r < max_rules }
    ensures { AlonePut p.now r empty.now tables.old tables.new }
{
    let sum = total(p, r, empty);
    for q in 0..sizes::MAX_PLACES {
        tables[ALONES + sizes::MAX_PLACES * r + q] = alone_at(p, r, q, empty, sum);
    }
}

// Writes what `alone_at` says of each place of every rule.
pub fn fill_alone(p: &Packed, empty: &Full, tables: &mut Tables)
    ensures { AlonesFilled p.now empty.now max_rules tables.new }
{
    for r in 0..sizes::MAX_RULES {
        put_alone(p, r, empty, tables);
    }
}
