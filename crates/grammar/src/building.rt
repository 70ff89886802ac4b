// The rules of a grammar while it is loaded: a rule as a command opens it, and a rule with the place that another one adds. The loader
// stores them in the grammar in place; the setters of specs/ say what such a store changes.
ghost use Rattle.std.specs.Prelude.{◌+◌, ◌*◌, ◌-◌, ◌<◌, ◌≡◌};
ghost use Rattle.sizes.specs.Sizes.{max_places};
ghost use Rattle.numbers.specs.Numbers.{signed_in};
ghost use Rattle.grammar.specs.Setters.{opened_rule, placed_rule};

use super::{Place, Rule, Symbol, zero_place};

// The last year there is.
pub const LAST_YEAR: u16 = 65535;

// A rule of these years, with no places and no name yet; its length is the signed number of a low and a high byte. It is written out
// whole: a copy of the zero rule with fields set costs 6 ns more a rule.
pub fn opened(left: u8, low: u8, high: u8, first: u16, last: u16) -> Rule
    ensures { result ≡ opened_rule left (signed_in (low + 256 * high)) first last }
{
    let length = numbers::signed((low as u16) + 256 * (high as u16));
    Rule {
        left: left,
        length: length,
        count: 0,
        places: [zero_place(); sizes::MAX_PLACES],
        first: first,
        last: last,
        name: [0u8; names::NAME],
    }
}

// The rule with one place more.
pub fn placed(rule: Rule, symbol: Symbol) -> Rule
    requires { rule.count < max_places }
    ensures { result ≡ placed_rule rule symbol }
{
    let mut r = rule;
    let n = r.count;
    r.places[n] = Place { symbol: symbol };
    r.count = n + 1;
    r
}

// The number of the last of n rules, and 0 if there is none.
pub fn last_of(n: usize) -> usize
    ensures { result ≡ n - 1 }
{
    n.saturating_sub(1)
}
