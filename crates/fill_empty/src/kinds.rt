// On which nonterminals of a cell's set the flags of a rule depend.
ghost use Rattle.std.specs.Prelude.{◌<◌, ◌≤◌};
ghost use Rattle.sizes.specs.Sizes.{max_rules, max_places};
ghost use Rattle.fill_empty.specs.Empty.{Kinds, KindAt, KindsAll};

use packed::Packed;

// The set v, with the nonterminal in place q of rule r if the places after it cut the empty span.
fn kind_at(p: &Packed, r: usize, q: usize, last: u32, v: u32) -> u32
    requires { (r < max_rules) × (q < max_places) }
    ensures { KindAt p.now r q last v result }
{
    if packed::contains(last, q + 1) {
        if packed::is_nonterminal(p, r, q) {
            let k = packed::value(p, r, q);
            if k < sizes::NONTERMINALS {
                return sets::with(v, k);
            }
        }
    }
    v
}

// The nonterminals of rule r after which its places cut the empty span.
fn kinds_of(p: &Packed, r: usize, last: u32) -> u32
    requires { r < max_rules }
    ensures { Kinds p.now r last result }
{
    let mut v: u32 = 0;
    for q in 0..packed::count(p, r) {
        v = kind_at(p, r, q, last, v);
    }
    v
}

// The same for every rule below this number.
pub fn all_kinds(
    p: &Packed,
    rules: usize,
    lasts: &[u32; sizes::MAX_RULES],
    kinds: &mut [u32; sizes::MAX_RULES],
)
    requires { rules ≤ max_rules }
    ensures { KindsAll p.now rules lasts.now kinds.new }
{
    for r in 0..rules {
        kinds[r] = kinds_of(p, r, lasts[r]);
    }
}
