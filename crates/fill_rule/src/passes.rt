// One rule at one cell of a column: its flags, and the set with its left side.
ghost use Rattle.std.specs.Prelude.{◌≡◌, ◌<◌};
ghost use Rattle.sizes.specs.Sizes.{max_rules, max_places};
ghost use Rattle.packed.specs.Packed.{symbol_in};
ghost use Rattle.fill_rule.specs.Passes.{place_cuts, RuleMask, added_in};

use super::begins::{both, with_if};
use packed::Packed;

// Whether the places q.. of rule r cut a span. The flags v say the same for the places after q.
fn place_cuts(
    p: &Packed,
    r: usize,
    q: usize,
    empty: u32,
    own: u32,
    inner: u32,
    last: u32,
    v: u32,
) -> bool
    requires { (r < max_rules) × (q < max_places) }
    ensures { result ≡ place_cuts (symbol_in p.now r q) q empty own inner last v }
{
    if packed::contains(inner, q) {
        return true;
    }
    if packed::is_nonterminal(p, r, q) {
        let k = packed::value(p, r, q);
        if both(empty, k, v, q + 1) {
            return true;
        }
        return both(own, k, last, q + 1);
    }
    false
}

// The places q of rule r such that the places q.. cut a span. The test ended says whether the span is empty.
pub fn rule_mask(
    p: &Packed,
    r: usize,
    ended: bool,
    empty: u32,
    own: u32,
    inner: u32,
    last: u32,
) -> u32
    requires { r < max_rules }
    ensures { RuleMask p.now r ended empty own inner last result }
{
    let count = packed::count(p, r);
    let mut v = with_if(0, count, ended);
    for q in (0..count).rev() {
        v = with_if(v, q, place_cuts(p, r, q, empty, own, inner, last, v));
    }
    v
}

// The set own, with the left side of rule r in it if all places of the rule cut the span.
pub fn added(p: &Packed, r: usize, m: u32, own: u32) -> u32
    requires { r < max_rules }
    ensures { result ≡ added_in p.now r m own }
{
    if packed::contains(m, 0) {
        let k = packed::left(p, r);
        if k < sizes::NONTERMINALS {
            return sets::with(own, k);
        }
    }
    own
}
