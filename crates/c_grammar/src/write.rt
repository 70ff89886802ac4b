// Writes a grammar as its row.
ghost use mathlib.Core.List.{◌∷◌, ◌++◌, flat_map};
ghost use Rattle.std.specs.Prelude.{◌≡◌, ◌+◌, ◌*◌, ◌≤◌, length, take};
ghost use Rattle.sizes.specs.Sizes.{max_places};
ghost use Rattle.theory_words.specs.Name.{name_size};
ghost use Rattle.c_grammar.specs.Flat.{flat_place, flat_rule, flat_of, flat_size, rule_numbers};

use super::{FLAT_SIZE, Flat, RULE_NUMBERS, YEARS_AT};
use grammar::{Grammar, Place, Rule, tagged};

// Writes the two numbers of a place from index `at` on. The numbers before them stay as found.
pub fn write_place(place: Place, at: usize, f: &mut Flat)
    requires { (at + 2 ≤ flat_size) × (length f.old ≡ flat_size) }
    ensures f_after { take (at + 2) f.new ≡ take at f.old ++ flat_place place }
    ensures f_len { length f.new ≡ flat_size }
{
    let s = place.symbol;
    f[at] = tagged::tag_of(s) as u16;
    f[at + 1] = (tagged::value_of(s) as u16) + 256 * (tagged::high_of(s) as u16);
}

// Writes the numbers of the places of a rule from index `at` on. The numbers before them stay as found.
fn write_places(rule: Rule, at: usize, f: &mut Flat)
    requires { (at + 2 * max_places ≤ flat_size) × (length f.old ≡ flat_size) }
    ensures f_after { take (at + 2 * max_places) f.new ≡ take at f.old ++ flat_map flat_place rule.places }
    ensures f_len { length f.new ≡ flat_size }
{
    for (q, place) in rule.places.iter().enumerate() {
        write_place(*place, at + 2 * q, f);
    }
}

// Writes the bytes of a name from index `at` on. The numbers before them stay as found.
fn write_name(name: [u8; names::NAME], at: usize, f: &mut Flat)
    requires { (at + name_size ≤ flat_size) × (length f.old ≡ flat_size) }
    ensures f_after { take (at + name_size) f.new ≡ take at f.old ++ name }
    ensures f_len { length f.new ≡ flat_size }
{
    for (k, byte) in name.iter().enumerate() {
        f[at + k] = u16::from(*byte);
    }
}

// Writes the years and the name of a rule from index `at` on. The numbers before them stay as found.
fn write_rest(rule: Rule, at: usize, f: &mut Flat)
    requires { (at + 2 + name_size ≤ flat_size) × (length f.old ≡ flat_size) }
    ensures f_after { take (at + 2 + name_size) f.new ≡ take at f.old ++ (rule.first ∷ rule.last ∷ rule.name) }
    ensures f_len { length f.new ≡ flat_size }
{
    f[at] = rule.first;
    f[at + 1] = rule.last;
    let name = rule.name;
    write_name(name, at + 2, f);
}

// Writes the numbers of a rule from index `at` on. The numbers before them stay as found.
pub fn write_rule(rule: Rule, at: usize, f: &mut Flat)
    requires { (at + rule_numbers ≤ flat_size) × (length f.old ≡ flat_size) }
    ensures f_after { take (at + rule_numbers) f.new ≡ take at f.old ++ flat_rule rule }
    ensures f_len { length f.new ≡ flat_size }
{
    f[at] = rule.left as u16;
    let z = rule.length;
    f[at + 1] = numbers::unsigned(z);
    f[at + 2] = numbers::saturate(rule.count);
    write_places(rule, at + 3, f);
    write_rest(rule, at + YEARS_AT, f);
}

// Writes the row of the grammar. The row is cleared first, so that its length is known whatever it held.
pub fn write(g: Grammar, f: &mut Flat)
    ensures { f.new ≡ flat_of g }
{
    *f = [0u16; FLAT_SIZE];
    f[0] = g.start as u16;
    f[1] = numbers::saturate(g.count);
    f[2] = g.depth as u16;
    for (r, rule) in g.rules.iter().enumerate() {
        write_rule(*rule, 3 + RULE_NUMBERS * r, f);
    }
}
