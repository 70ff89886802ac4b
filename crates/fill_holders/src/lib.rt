// Which rules are looked at again when a nonterminal is added to a cell's set, and which can end with a terminal.
#![tactic(auto)]

ghost use Rattle.std.specs.Prelude.{◌≡◌, ◌<◌, ◌≤◌, length, replicate};
ghost use Rattle.sizes.specs.Sizes.{max_rules, max_places};
ghost use Rattle.fill_rules.specs.Rules.{row_size};
ghost use Rattle.fill_holders.specs.Holders.{HeldOf, HeldAll, ends_at, EndsInTerminal, AddedIf, EndingRules};

use fill_rules::Rules;
use fill_sets::row::{Row, put_set, set_at};
use fill_sets::{none, with};
use packed::Packed;

// Adds rule r to the holders of each of its kinds.
fn hold(r: usize, kinds: u32, holders: &mut Row)
    requires { (r < max_rules) × (length holders.old ≡ row_size) }
    ensures { HeldOf r kinds holders.old holders.new }
{
    let mut rest = kinds;
    while rest != 0 {
        let k = sets::lowest(rest);
        put_set(holders, k, with(set_at(holders, k), r));
        rest = sets::without(rest, k);
    }
}

// The same for every rule below this number, from no holders on.
pub fn hold_all(rules: usize, kinds: &[u32; sizes::MAX_RULES], holders: &mut Row)
    requires { (rules ≤ max_rules) × (holders.old ≡ replicate row_size 0) }
    ensures { HeldAll rules kinds.now holders.new }
{
    for (r, k) in kinds[..rules].iter().enumerate() {
        hold(r, *k, holders);
    }
}

// Whether place q of rule r holds a terminal after which its places cut the empty span.
fn ends_at(p: &Packed, r: usize, q: usize, last: u32) -> bool
    requires { (r < max_rules) × (q < max_places) }
    ensures { result ≡ ends_at p.now r q last }
{
    if packed::is_nonterminal(p, r, q) {
        return false;
    }
    packed::contains(last, q + 1)
}

// Whether rule r has a terminal after which its places cut the empty span.
fn ends(p: &Packed, r: usize, last: u32) -> bool
    requires { r < max_rules }
    ensures { EndsInTerminal p.now r last result }
{
    for q in 0..packed::count(p, r) {
        if ends_at(p, r, q, last) {
            return true;
        }
    }
    false
}

// The set with rule r in it, if the test holds.
fn with_if(s: Rules, r: usize, test: bool) -> Rules
    requires { r < max_rules }
    ensures { AddedIf r test s result }
{
    if test { with(s, r) } else { s }
}

// The rules below this number that have such a terminal.
pub fn ending_rules(p: &Packed, rules: usize, lasts: &[u32; sizes::MAX_RULES]) -> Rules
    requires { rules ≤ max_rules }
    ensures { EndingRules p.now rules lasts.now result }
{
    let mut s = none();
    for (r, last) in lasts[..rules].iter().enumerate() {
        s = with_if(s, r, ends(p, r, *last));
    }
    s
}
