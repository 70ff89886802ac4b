// Clears what is unused in a grammar (document 02, U8): a longer grammar that is handed back has no rubbish of the one handed in.
#![tactic(auto)]

ghost use Rattle.std.specs.Prelude.{ℕ, true, ◌≡◌, ◌≤◌, ◌<◌, map, length, get_or};
ghost use Rattle.sizes.specs.Sizes.{max_places};
ghost use Rattle.grammar.specs.Valid.{valid_grammar};
ghost use Rattle.grammar.specs.Zero.{no_rule};
ghost use Rattle.theory_tidying.specs.Tidying.{tidied_rule, tidied};

use grammar::{Grammar, Rule};

// The rule with zeros in its unused places.
fn tidy_rule(r: Rule) -> Rule
    requires { r.count ≤ max_places }
    ensures { result ≡ tidied_rule r }
{
    let mut t = r;
    t.places[r.count..].fill(grammar::zero_place());
    t
}

// Tidies each of these rules.
fn tidy_rules(rules: &mut [Rule])
    requires { (i : ℕ) → i < length rules.old → (get_or rules.old i no_rule).count ≤ max_places }
    ensures { rules.new ≡ map tidied_rule rules.old }
{
    for r in rules.iter_mut() {
        *r = tidy_rule(*r);
    }
}

// The grammar with zeros in its unused records, and in the unused places of the others. It is changed in place: each copy of a grammar
// takes 7 KB of stack.
pub fn tidy(g: Grammar) -> Grammar
    requires { valid_grammar g ≡ true }
    ensures { result ≡ tidied g }
{
    let mut h = g;
    let (used, unused) = h.rules.split_at_mut(g.count);
    tidy_rules(used);
    unused.fill(grammar::zero_rule());
    h
}
