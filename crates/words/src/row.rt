// The names of a grammar's rules as one row of bytes.
ghost use Rattle.std.specs.Prelude.{◌≡◌, ℕ, ◌+◌, ◌≤◌, length, get_or};
ghost use Rattle.theory_words.specs.Name.{name_size};
ghost use Rattle.grammar.specs.Zero.{no_rule};
ghost use Rattle.print_number.specs.Put.{Put};
ghost use Rattle.words_text.specs.Names.{names_size, name_in};

use grammar::{Grammar, Rule};
use words_text::Names;

// Writes the name of a rule with its filling, and returns the index after it.
fn put_name(rule: Rule, at: usize, names: &mut [u8]) -> usize
    requires { at + name_size ≤ length names.old }
    ensures { Put rule.name at result names.old names.new × (length rule.name ≡ name_size) }
{
    let name = rule.name;
    print_number::put_bytes(&name, at, names)
}

// The names of all rules, one after the other.
pub fn names_of(g: Grammar) -> Names
    ensures { (length result ≡ names_size) × ((r : ℕ) → name_in result r ≡ (get_or g.rules r no_rule).name) }
{
    let mut names = [0u8; words_text::NAMES_SIZE];
    let mut at = 0;
    for rule in &g.rules {
        at = put_name(*rule, at, &mut names);
    }
    names
}
