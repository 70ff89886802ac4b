// Check 8 for the records of a grammar: a place, and a rule.
ghost use Rattle.std.specs.Prelude.{◌≡◌};
ghost use Rattle.std.specs.List.{list_all};
ghost use Rattle.grammar.specs.Valid.{valid_place, valid_rule};

use super::{Place, Rule, Symbol};

// Check 8 for one place.
pub fn valid_place(p: Place) -> bool
    ensures { result ≡ valid_place p }
{
    let s = p.symbol;
    match s {
        Symbol::Nonterminal(k) => k <= 31,
        Symbol::Terminal(_) => true,
        Symbol::Range(low, high) => low <= high,
    }
}

// Check 8 for the places of a rule.
fn valid_places(places: &[Place]) -> bool
    ensures { result ≡ list_all valid_place places.now }
{
    places.iter().all(|p| valid_place(*p))
}

// Check 8 for one rule record. Its years and its name come last.
pub fn valid_rule(rule: Rule) -> bool
    ensures { result ≡ valid_rule rule }
{
    let n = rule.count;
    if rule.left > 31 || n > sizes::MAX_PLACES {
        return false;
    }
    if !valid_places(&rule.places[..n]) {
        return false;
    }
    let name = rule.name;
    rule.first <= rule.last && names::allowed(name)
}
