// Where inner cuts of a span begin, found from spans as bits: one AND takes the place of a loop over the ends.
ghost use Rattle.std.specs.Prelude.{true, false, List, ◌≡◌, ℕ, ◌<◌, ◌≤◌};
ghost use Rattle.sizes.specs.Sizes.{max_rules, max_places, max_input};
ghost use Rattle.chart.specs.Cell.{Fit};
ghost use Rattle.packed.specs.Packed.{is_nonterminal_in, place_count};
ghost use Rattle.fill_inner.specs.Begins.{Follows, BeginsAt, Begins};

use fill_rule::begins::with_if;
use fill_words::words::{Ends, Starts};
use packed::Packed;

// The span from i to n, with two sets of places of a rule: those that fit the byte at i, and those from which on the rule cuts the empty
// span at n.
#[derive(Clone, Copy)]
pub struct Window {
    pub i: usize,
    pub n: usize,
    pub fits: u32,
    pub last: u32,
}

// Whether the places q.. of rule r cut the span from a to n, if the starts from j on are known.
fn follows(p: &Packed, r: usize, q: usize, a: usize, n: usize, starts: &Starts, last: u32) -> bool
    requires { (r < max_rules) × (0 < q) × (q ≤ place_count p.now r) × (a ≤ n) × (n ≤ max_input) }
    ensures { (fit : Fit) (j : ℕ) → j ≤ a → Follows fit p.now r q a j n starts.now last result }
{
    if a < n {
        if q < packed::count(p, r) {
            return sets::wide::has(starts[sizes::MAX_PLACES * r + q], a);
        }
        return false;
    }
    packed::contains(last, q)
}

// Whether place q of rule r holds a nonterminal over a span from i to some b such that the places after q cut the rest.
fn nonterminal_begins(
    p: &Packed,
    r: usize,
    q: usize,
    i: usize,
    ends: &Ends,
    starts: &Starts,
) -> bool
    requires { (r < max_rules) × (q < max_places) × (i < max_input) × (q < place_count p.now r) × (is_nonterminal_in p.now r q ≡ true) }
    ensures { (n fits last : ℕ) → BeginsAt p.now r q i n fits ends.now starts.now last result }
{
    let k = packed::value(p, r, q);
    if k < sizes::NONTERMINALS {
        if q + 1 < packed::count(p, r) {
            return sets::wide::meets(
                ends[sizes::NONTERMINALS * i + k],
                starts[sizes::MAX_PLACES * r + (q + 1)],
            );
        }
    }
    false
}

// Whether place q of rule r holds a terminal that fits position i, and the places after q cut the rest.
fn terminal_begins(p: &Packed, r: usize, q: usize, window: Window, starts: &Starts) -> bool
    requires { (r < max_rules) × (q < max_places) × (window.i < window.n) × (window.n ≤ max_input) × (q < place_count p.now r)
        × (is_nonterminal_in p.now r q ≡ false) }
    ensures { (ends : List ℕ) → BeginsAt p.now r q window.i window.n window.fits ends starts.now
        window.last result }
{
    if packed::contains(window.fits, q) {
        return follows(p, r, q + 1, window.i + 1, window.n, starts, window.last);
    }
    false
}

// Whether the places q.. of rule r cut the span from i to n with a first piece that is a byte, or neither empty nor the whole.
fn begins_at(p: &Packed, r: usize, q: usize, window: Window, ends: &Ends, starts: &Starts) -> bool
    requires { (r < max_rules) × (q < max_places) × (window.i < window.n) × (window.n ≤ max_input) × (q < place_count p.now r) }
    ensures { BeginsAt p.now r q window.i window.n window.fits ends.now starts.now
        window.last result }
{
    if packed::is_nonterminal(p, r, q) {
        return nonterminal_begins(p, r, q, window.i, ends, starts);
    }
    terminal_begins(p, r, q, window, starts)
}

// The places of rule r at which an inner cut of the span begins.
pub fn begins(p: &Packed, r: usize, window: Window, ends: &Ends, starts: &Starts) -> u32
    requires { (r < max_rules) × (window.i < window.n) × (window.n ≤ max_input) }
    ensures { Begins p.now r window.i window.n window.fits ends.now starts.now
        window.last result }
{
    let mut v: u32 = 0;
    for q in 0..packed::count(p, r) {
        v = with_if(v, q, begins_at(p, r, q, window, ends, starts));
    }
    v
}
