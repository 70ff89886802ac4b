// The fit table: which places of which rules fit which positions of an input. It is made once for a call, and nothing else reads the input.
#![tactic(auto)]

ghost use Rattle.std.specs.Prelude.{◌≡◌, ◌<◌, ◌≤◌, length};
ghost use Rattle.sizes.specs.Sizes.{max_rules, max_places, max_input};
ghost use Rattle.sets.specs.Set.{insert};
ghost use Rattle.packed.specs.Packed.{place_count};
ghost use Rattle.packed_fit.specs.Fit.{fit_size, Told, Positions, FitPut, At, AtPlace, AtRule};

use packed::Packed;

// One byte for each position and rule.
pub const FIT_SIZE: usize = sizes::MAX_INPUT * sizes::MAX_RULES;

pub type FitTable = [u8; FIT_SIZE];

// How many positions of an input the table has: all, but at most 64.
fn positions(n: usize) -> usize
    ensures { Positions n result }
{
    n.min(sizes::MAX_INPUT)
}

// The byte, with place q in it.
fn with_place(x: u8, q: usize) -> u8
    requires { q < max_places }
    ensures { result ≡ insert q x }
{
    sets::with(u32::from(x), q) as u8
}

// Writes whether place q of rule r fits position i.
fn put_at(p: &Packed, r: usize, q: usize, w: &[u8], i: usize, t: &mut FitTable)
    requires { (r < max_rules) × (q < max_places) × (i < max_input) × (length t.old ≡ fit_size) }
    ensures { FitPut p.now w.now (At i r q) t.old t.new }
{
    if packed::fits_at(p, r, q, w, i) {
        t[sizes::MAX_RULES * i + r] = with_place(t[sizes::MAX_RULES * i + r], q);
    }
}

// Writes which of n positions place q of rule r fits.
fn write_place(p: &Packed, r: usize, q: usize, w: &[u8], n: usize, t: &mut FitTable)
    requires { (r < max_rules) × (q < max_places) × (n ≤ max_input) × (length t.old ≡ fit_size) }
    ensures { FitPut p.now w.now (AtPlace n r q) t.old t.new }
{
    for i in 0..n {
        put_at(p, r, q, w, i, t);
    }
}

// The same, without a loop for a nonterminal, which fits no position.
fn put_place(p: &Packed, r: usize, q: usize, w: &[u8], n: usize, t: &mut FitTable)
    requires { (r < max_rules) × (q < max_places) × (n ≤ max_input) × (length t.old ≡ fit_size) }
    ensures { FitPut p.now w.now (AtPlace n r q) t.old t.new }
{
    if packed::is_nonterminal(p, r, q) {
        return;
    }
    write_place(p, r, q, w, n, t);
}

// Writes which of n positions the places of rule r fit.
fn write_rule(p: &Packed, r: usize, w: &[u8], n: usize, t: &mut FitTable)
    requires { (r < max_rules) × (n ≤ max_input) × (length t.old ≡ fit_size) }
    ensures { FitPut p.now w.now (AtRule n r (place_count p.now r))
        t.old t.new }
{
    for q in 0..packed::count(p, r) {
        put_place(p, r, q, w, n, t);
    }
}

// The fit table of a grammar and an input. For an input longer than 64 bytes it has the first 64 positions.
pub fn table(p: &Packed, w: &[u8]) -> FitTable
    ensures { Told p.now w.now result }
{
    let n = positions(w.len());
    let mut t = [0u8; FIT_SIZE];
    for r in 0..packed::rule_count(p) {
        write_rule(p, r, w, n, &mut t);
    }
    t
}
