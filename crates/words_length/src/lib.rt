// How many bytes the text of a derivation has: a sum over its nodes, and three for each byte of the input.
#![tactic(auto)]

ghost use Rattle.std.specs.Prelude.{◌≡◌, ◌*◌, ◌+◌, ◌≤◌, length};
ghost use Rattle.sizes.specs.Sizes.{max_input, output_size};
ghost use Rattle.words_text.specs.Names.{names_size};
ghost use Rattle.words_length.specs.Length.{size_in, most_size, size_sum};

use check_walk::offered::rule_number;
use packed::Packed;
use words_text::Names;

// What a node of rule r adds: the text of the rule, `(` and `)`, a comma before each place but the first. 0 if there is no such rule.
fn node_length(names: &Names, p: &Packed, r: usize) -> usize
    requires { length names.now ≡ names_size }
    ensures { (result ≡ size_in names.now p.now r) × (result ≤ most_size) }
{
    if r >= sizes::MAX_RULES {
        return 0;
    }
    let places = packed::count(p, r);
    let n = words_text::rule_length(names, r);
    if places == 0 { n + 2 } else { n + places + 1 }
}

// The length of the text of a derivation e of an input of n bytes.
pub fn text_length(names: &Names, p: &Packed, n: usize, e: &[u16]) -> usize
    requires { (length names.now ≡ names_size) × (n ≤ max_input) × (length e.now ≤ output_size) }
    ensures { result ≡ size_sum (size_in names.now p.now) e.now + 3 * n }
{
    let mut m = 3 * n;
    for i in 0..e.len() / 2 {
        m += node_length(names, p, rule_number(e, i));
    }
    m
}
