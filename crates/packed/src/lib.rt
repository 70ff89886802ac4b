// The flat copy of a grammar for inner loops. Loops and recursion take it by reference.
#![tactic(auto)]

ghost use Rattle.std.specs.Prelude.{◌≡◌, ◌<◌, ◌≤◌};
ghost use Rattle.sizes.specs.Sizes.{max_rules, max_places};
ghost use Rattle.sets.specs.Set.{has as in_set};
ghost use Rattle.cfg.specs.Grammar.{range, fits};
ghost use Rattle.packed.specs.Packed.{left_in, Used, place_count, is_nonterminal_in, is_range_in, value_in, high_in, symbol_in, fits_place};

// The bytes of a rule (its left side, its count, two for each place, and one more for each), and of a packed grammar.
pub const RULE_BYTES: usize = 2 + 3 * sizes::MAX_PLACES;

pub const PACKED_SIZE: usize = sizes::MAX_RULES * RULE_BYTES;

// Where the high ends of a rule's places are: after its left side, its count, and the tags and values.
pub const HIGHS: usize = 2 + 2 * sizes::MAX_PLACES;

pub type Packed = [u8; PACKED_SIZE];

// The left side of rule r, or a number from 32 on if there is no such rule.
#[tactic(auto, unfolding(crate::specs::Packed::left_in))]
pub fn left(p: &Packed, r: usize) -> usize
    requires { r < max_rules }
    ensures { result ≡ left_in p.now r }
{
    usize::from(p[RULE_BYTES * r])
}

// A number above that of every used rule: one past the last of them.
pub fn rule_count(p: &Packed) -> usize
    ensures { (result ≤ max_rules) × Used p.now result }
{
    for r in (0..sizes::MAX_RULES).rev() {
        if left(p, r) < sizes::NONTERMINALS {
            return r + 1;
        }
    }
    0
}

// How many places rule r has: none if there is no such rule, so that loops pass over it.
pub fn count(p: &Packed, r: usize) -> usize
    requires { r < max_rules }
    ensures { (result ≡ place_count p.now r) × (result ≤ 8) }
{
    if left(p, r) < sizes::NONTERMINALS {
        usize::from(p[RULE_BYTES * r + 1]).min(sizes::MAX_PLACES)
    } else {
        0
    }
}

// Whether place q of rule r holds a nonterminal.
pub fn is_nonterminal(p: &Packed, r: usize, q: usize) -> bool
    requires { (r < max_rules) × (q < max_places) }
    ensures { result ≡ is_nonterminal_in p.now r q }
{
    p[RULE_BYTES * r + 2 + 2 * q] == 0
}

// The number that place q of rule r holds.
#[tactic(auto, unfolding(crate::specs::Packed::value_in))]
pub fn value(p: &Packed, r: usize, q: usize) -> usize
    requires { (r < max_rules) × (q < max_places) }
    ensures { (result ≡ value_in p.now r q) × (result < 256) }
{
    usize::from(p[RULE_BYTES * r + 3 + 2 * q])
}

// Whether place q of rule r holds a range.
pub fn is_range(p: &Packed, r: usize, q: usize) -> bool
    requires { (r < max_rules) × (q < max_places) }
    ensures { result ≡ is_range_in p.now r q }
{
    p[RULE_BYTES * r + 2 + 2 * q] == 2
}

// The high end of the range that place q of rule r holds.
#[tactic(auto, unfolding(crate::specs::Packed::high_in))]
pub fn high(p: &Packed, r: usize, q: usize) -> usize
    requires { (r < max_rules) × (q < max_places) }
    ensures { result ≡ high_in p.now r q }
{
    usize::from(p[RULE_BYTES * r + HIGHS + q])
}

// Whether a byte is in the range from low to high, both ends included.
#[tactic(auto, unfolding(cfg::specs::Grammar::fits))]
pub fn in_range(low: usize, high: usize, m: usize) -> bool
    ensures { result ≡ fits (range low high) m }
{
    low <= m && m <= high
}

// Whether k is in the set, for every k.
pub fn contains(word: u32, k: usize) -> bool
    ensures { result ≡ in_set k word }
{
    k < sizes::NONTERMINALS && sets::has(word, k)
}

// Whether the byte at position i of the input fits place q of rule r. Only this function reads the input.
pub fn fits_at(p: &Packed, r: usize, q: usize, w: &[u8], i: usize) -> bool
    requires { (r < max_rules) × (q < max_places) }
    ensures { result ≡ fits_place w.now (symbol_in p.now r q) i }
{
    if is_nonterminal(p, r, q) {
        return false;
    }
    if i < w.len() {
        let m = usize::from(w[i]);
        if is_range(p, r, q) {
            return in_range(value(p, r, q), high(p, r, q), m);
        }
        return value(p, r, q) == m;
    }
    false
}
