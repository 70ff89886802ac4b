// Reads a grammar from its row.
ghost use Rattle.std.specs.Prelude.{◌≡◌, ◌+◌, ◌*◌, ◌≤◌};
ghost use Rattle.sizes.specs.Sizes.{max_places};
ghost use Rattle.theory_words.specs.Name.{name_size};
ghost use Rattle.c_grammar.specs.Flat.{row_place, row_places, row_name, row_rule, flat_size, rule_numbers, grammar_in};

use super::symbol::symbol;
use super::{Flat, NAME_AT, RULE_NUMBERS, YEARS_AT};
use grammar::{Grammar, Place, Rule};

fn read_place(f: &Flat, at: usize) -> Place
    requires { at + 2 ≤ flat_size }
    ensures { result ≡ row_place f.now at }
{
    Place {
        symbol: symbol(f[at], f[at + 1]),
    }
}

fn read_places(f: &Flat, at: usize) -> [Place; sizes::MAX_PLACES]
    requires { at + 2 * max_places ≤ flat_size }
    ensures { result ≡ row_places f.now at }
{
    let mut places = [grammar::zero_place(); sizes::MAX_PLACES];
    for (q, place) in places.iter_mut().enumerate() {
        *place = read_place(f, at + 2 * q);
    }
    places
}

// The bytes of a name. A number that is no byte is read as 255, which is in no valid name.
fn read_name(f: &Flat, at: usize) -> [u8; names::NAME]
    requires { at + name_size ≤ flat_size }
    ensures { result ≡ row_name f.now at }
{
    let mut name = [0u8; names::NAME];
    for (k, byte) in name.iter_mut().enumerate() {
        *byte = numbers::byte(f[at + k]);
    }
    name
}

fn read_rule(f: &Flat, at: usize) -> Rule
    requires { at + rule_numbers ≤ flat_size }
    ensures { result ≡ row_rule f.now at }
{
    let left = numbers::byte(f[at]);
    let length = numbers::signed(f[at + 1]);
    let count = usize::from(f[at + 2]);
    let places = read_places(f, at + 3);
    let name = read_name(f, at + NAME_AT);
    Rule {
        left: left,
        length: length,
        count: count,
        places: places,
        first: f[at + YEARS_AT],
        last: f[at + YEARS_AT + 1],
        name: name,
    }
}

// The grammar of a row. Its rules are read into place: an array of them that is made first and moved then costs as much as reading it.
pub fn read(f: &Flat) -> Grammar
    ensures { result ≡ grammar_in f.now }
{
    let start = numbers::byte(f[0]);
    let count = usize::from(f[1]);
    let depth = numbers::byte(f[2]);
    let mut g = Grammar {
        start: start,
        count: count,
        depth: depth,
        rules: [grammar::zero_rule(); sizes::MAX_RULES],
    };
    for (r, rule) in g.rules.iter_mut().enumerate() {
        *rule = read_rule(f, 3 + RULE_NUMBERS * r);
    }
    g
}
