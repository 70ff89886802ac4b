// The empty span at the end of a column: its set, and the flags of the rules at it.
ghost use Rattle.std.specs.Prelude.{◌≤◌};
ghost use Rattle.sizes.specs.Sizes.{max_rules};
ghost use Rattle.fill_empty.specs.Empty.{EmptyPassed, EmptyClosed};

use fill_rule::passes::{added, rule_mask};
use packed::Packed;

// One pass over the rules below this number.
fn pass(p: &Packed, rules: usize, own: u32, lasts: &mut [u32; sizes::MAX_RULES]) -> u32
    requires { rules ≤ max_rules }
    ensures { EmptyPassed p.now rules own result lasts.new }
{
    let mut v = own;
    for r in 0..rules {
        let m = rule_mask(p, r, true, v, v, 0, 0);
        lasts[r] = m;
        v = added(p, r, m, v);
    }
    v
}

// Passes over these rules until nothing is added.
pub fn closure(p: &Packed, rules: usize, lasts: &mut [u32; sizes::MAX_RULES]) -> u32
    requires { rules ≤ max_rules }
    ensures { EmptyClosed p.now rules result lasts.new }
{
    let mut own: u32 = 0;
    loop {
        let next = pass(p, rules, own, lasts);
        if next == own {
            return next;
        }
        own = next;
    }
}
