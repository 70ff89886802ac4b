// Sets of rules: they are joined, stored in rows and listed.
#![tactic(auto)]

pub mod list;
pub mod row;

ghost use Rattle.std.specs.Prelude.{◌<◌};
ghost use Rattle.sizes.specs.Sizes.{max_rules};
ghost use Rattle.fill_rules.specs.Rules.{NoRule, SameRules, RuleAdded, RulesJoined};

use fill_rules::Rules;

// How many rules a word has.
pub const WORD: usize = 64;

// The set without members.
pub fn none() -> Rules
    ensures { NoRule result }
{
    Rules { low: 0, high: 0 }
}

// Whether the two sets are the same.
pub fn same(s: Rules, t: Rules) -> bool
    ensures { SameRules s t result }
{
    s == t
}

// The set with rule r in it.
pub fn with(s: Rules, r: usize) -> Rules
    requires { r < max_rules }
    ensures { RuleAdded r s result }
{
    if r < WORD {
        Rules {
            low: sets::wide::with(s.low, r),
            high: s.high,
        }
    } else {
        Rules {
            low: s.low,
            high: sets::wide::with(s.high, r - WORD),
        }
    }
}

// What is in one of the sets.
pub fn union(s: Rules, t: Rules) -> Rules
    ensures { RulesJoined s t result }
{
    Rules {
        low: sets::wide::union(s.low, t.low),
        high: sets::wide::union(s.high, t.high),
    }
}
