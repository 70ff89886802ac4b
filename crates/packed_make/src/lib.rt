// Packing: the flat copy of a declared grammar.
#![tactic(auto)]

ghost use Rattle.std.specs.Prelude.{true, ◌≡◌, ℕ, ◌<◌, length};
ghost use Rattle.std.proofs.Math.Option.{none};
ghost use Rattle.sizes.specs.Sizes.{max_rules};
ghost use Rattle.cfg.specs.Grammar.{rule as rule_of_number};
ghost use Rattle.grammar.specs.Valid.{valid_rule, valid_grammar};
ghost use Rattle.grammar.specs.View.{rule_of, in_force, rule_in_year, dated, grammar_of};
ghost use Rattle.packed.specs.Packed.{rule_in, cfg_in, packed_size};
ghost use Rattle.packed_make.specs.Place.{RulePacked};

use grammar::{Grammar, Rule, tagged};
use packed::{HIGHS, PACKED_SIZE, Packed, RULE_BYTES};

// Writes the rule into row r.
fn pack_rule(rule: Rule, r: usize, p: &mut Packed)
    requires { (r < max_rules) × (valid_rule rule ≡ true) × (length p.old ≡ packed_size) }
    ensures { RulePacked (rule_of rule) r p.old p.new }
{
    let n = rule.count;
    p[RULE_BYTES * r] = rule.left;
    p[RULE_BYTES * r + 1] = n as u8;
    for (q, place) in rule.places[..n].iter().enumerate() {
        let s = place.symbol;
        p[RULE_BYTES * r + 2 + 2 * q] = tagged::tag_of(s);
        p[RULE_BYTES * r + 3 + 2 * q] = tagged::value_of(s);
        p[RULE_BYTES * r + HIGHS + q] = tagged::high_of(s);
    }
}

// Whether the rule is in force in the year. Both ends of its span are included.
fn in_force(rule: Rule, year: u16) -> bool
    ensures { result ≡ in_force year rule }
{
    rule.first <= year && year <= rule.last
}

// Writes the rule into row r if it is in force in the year. Else the row, which has no rule, stays as it is.
fn pack_in_force(rule: Rule, year: u16, r: usize, p: &mut Packed)
    requires { (r < max_rules) × (valid_rule rule ≡ true) × (length p.old ≡ packed_size) × (rule_in p.old r ≡ none) }
    ensures { RulePacked (rule_in_year year rule) r p.old p.new }
{
    if in_force(rule, year) {
        pack_rule(rule, r, p);
    }
}

// The packed grammar of a year. Rules that are not used or not in force have the left side 255.
pub fn pack(g: Grammar, year: u16) -> Packed
    requires { valid_grammar g ≡ true }
    ensures { (r : ℕ) → rule_of_number (cfg_in g.start result) r ≡ rule_of_number (grammar_of (dated g year)) r }
{
    let mut p = [255u8; PACKED_SIZE];
    for (r, rule) in g.rules[..g.count].iter().enumerate() {
        pack_in_force(*rule, year, r, &mut p);
    }
    p
}
