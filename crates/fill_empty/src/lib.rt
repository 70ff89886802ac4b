// The empty span at the end of a column: its set, the flags of the rules at it, and on which nonterminals of a cell's set the flags of a
// rule depend. All this depends on no byte and on no other cell, so it is the same for every column.
#![tactic(auto)]

pub mod kinds;
pub mod span;

ghost use Rattle.std.specs.Prelude.{◌≤◌};
ghost use Rattle.sizes.specs.Sizes.{max_rules};
ghost use Rattle.fill_empty.specs.Empty.{EmptyTold};

use kinds::all_kinds;
use packed::Packed;
use span::closure;

// The set of the empty span, with the flags and the kinds of the rules below this number.
pub fn tell(
    p: &Packed,
    rules: usize,
    lasts: &mut [u32; sizes::MAX_RULES],
    kinds: &mut [u32; sizes::MAX_RULES],
) -> u32
    requires { rules ≤ max_rules }
    ensures { EmptyTold p.now rules result lasts.new kinds.new }
{
    let own = closure(p, rules, lasts);
    all_kinds(p, rules, lasts, kinds);
    own
}
