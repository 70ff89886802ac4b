// The rules at one cell of a column are looked at until nothing is added. A rule is looked at again only if its flags can have changed.
#![tactic(auto)]

pub mod passes;

ghost use Rattle.std.specs.Prelude.{◌<◌};
ghost use Rattle.sizes.specs.Sizes.{max_rules};
ghost use Rattle.fill_closure.specs.Looks.{RuleLooked, Again};

use fill_rule::passes::{added, rule_mask};
use packed::Packed;

// What is known at a cell: the set of the empty span at its start, and its own set so far.
#[derive(Clone, Copy)]
pub struct Known {
    pub start: u32,
    pub own: u32,
}

// Looks at rule r at a cell.
fn look(
    p: &Packed,
    r: usize,
    known: Known,
    inside: u32,
    last: u32,
    kinds: u32,
    flags: &mut [u32; sizes::MAX_RULES],
    made: &mut [u32; sizes::MAX_RULES],
) -> u32
    requires { r < max_rules }
    ensures { RuleLooked p.now r known.start inside last kinds known.own
        flags.old made.old flags.new made.new result }
{
    let m = rule_mask(p, r, false, known.start, known.own, inside, last);
    flags[r] = m;
    made[r] = sets::common(known.own, kinds);
    added(p, r, m, known.own)
}

// The first look at rule r. It has no flags if it has no inner cuts and the set has none of its kinds.
pub fn look_first(
    p: &Packed,
    r: usize,
    known: Known,
    inside: u32,
    last: u32,
    kinds: u32,
    flags: &mut [u32; sizes::MAX_RULES],
    made: &mut [u32; sizes::MAX_RULES],
) -> u32
    requires { r < max_rules }
    ensures { RuleLooked p.now r known.start inside last kinds known.own
        flags.old made.old flags.new made.new result }
{
    if inside == 0 {
        if sets::common(known.own, kinds) == 0 {
            flags[r] = 0;
            made[r] = 0;
            return known.own;
        }
    }
    look(p, r, known, inside, last, kinds, flags, made)
}

// A further look at rule r, if its flags can have changed.
pub fn look_again(
    p: &Packed,
    r: usize,
    known: Known,
    inside: u32,
    last: u32,
    kinds: u32,
    flags: &mut [u32; sizes::MAX_RULES],
    made: &mut [u32; sizes::MAX_RULES],
) -> u32
    requires { r < max_rules }
    ensures { Again p.now r known.start inside last kinds known.own
        flags.old made.old flags.new made.new result }
{
    if sets::common(known.own, kinds) == made[r] {
        return known.own;
    }
    look(p, r, known, inside, last, kinds, flags, made)
}
