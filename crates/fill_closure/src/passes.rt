// All rules at one cell, until nothing is added.
ghost use Rattle.std.specs.Prelude.{◌≤◌};
ghost use Rattle.sizes.specs.Sizes.{max_rules};
ghost use Rattle.fill_closure.specs.Looks.{PassState, PassMade, LeastClosed};

use super::{Known, look_again, look_first};
use packed::Packed;

// The first look at the rules below this number. It starts with the empty set.
fn first(
    p: &Packed,
    rules: usize,
    start: u32,
    insides: &[u32; sizes::MAX_RULES],
    lasts: &[u32; sizes::MAX_RULES],
    kinds: &[u32; sizes::MAX_RULES],
    flags: &mut [u32; sizes::MAX_RULES],
    made: &mut [u32; sizes::MAX_RULES],
) -> u32
    requires { rules ≤ max_rules }
    ensures { PassState p.now rules start insides.now lasts.now kinds.now
        rules result flags.new made.new }
{
    let mut own: u32 = 0;
    for r in 0..rules {
        own = look_first(
            p,
            r,
            Known { start, own },
            insides[r],
            lasts[r],
            kinds[r],
            flags,
            made,
        );
    }
    own
}

// A further look at those rules whose flags can have changed.
fn again(
    p: &Packed,
    rules: usize,
    known: Known,
    insides: &[u32; sizes::MAX_RULES],
    lasts: &[u32; sizes::MAX_RULES],
    kinds: &[u32; sizes::MAX_RULES],
    flags: &mut [u32; sizes::MAX_RULES],
    made: &mut [u32; sizes::MAX_RULES],
) -> u32
    requires { (rules ≤ max_rules)
        × PassState p.now rules known.start insides.now lasts.now kinds.now rules known.own flags.old made.old }
    ensures { PassMade p.now rules known.start insides.now lasts.now kinds.now
        rules known.own result flags.new made.new }
{
    let Known { start, own } = known;
    let mut v = own;
    for r in 0..rules {
        v = look_again(
            p,
            r,
            Known { start, own: v },
            insides[r],
            lasts[r],
            kinds[r],
            flags,
            made,
        );
    }
    v
}

// Looks until nothing is added: returns the set of the cell, and leaves the flags of the rules in flags.
pub fn closure(
    p: &Packed,
    rules: usize,
    start: u32,
    insides: &[u32; sizes::MAX_RULES],
    lasts: &[u32; sizes::MAX_RULES],
    kinds: &[u32; sizes::MAX_RULES],
    flags: &mut [u32; sizes::MAX_RULES],
    made: &mut [u32; sizes::MAX_RULES],
) -> u32
    requires { rules ≤ max_rules }
    ensures { LeastClosed p.now rules start insides.now lasts.now kinds.now
        result flags.new made.new }
{
    let mut own = first(p, rules, start, insides, lasts, kinds, flags, made);
    loop {
        let next = again(
            p,
            rules,
            Known { start, own },
            insides,
            lasts,
            kinds,
            flags,
            made,
        );
        if next == own {
            return next;
        }
        own = next;
    }
}
