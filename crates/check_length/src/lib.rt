// The total length of a derivation: the sum of the rule lengths of its nodes, rounded to tenths.
#![tactic(auto)]

ghost use Rattle.std.specs.Prelude.{map, ◌≡◌, ◌<◌, ◌≤◌, length};
ghost use Rattle.std.specs.Int.Signed.{mag};
ghost use Rattle.sizes.specs.Sizes.{max_rules, output_size};
ghost use Rattle.results.specs.Measure.{sum as sum_of, nearest as nearest_of, rounded as rounded_of, tenths_of};
ghost use Rattle.check_length.specs.Measure.{lengths_in, length_of_rule};

use check_walk::offered::rule_number;
use grammar::{Grammar, Rule};

// The lengths of the rules, by their numbers.
pub type Lengths = [i16; sizes::MAX_RULES];

// The nearest tenth to n hundredths; where two are equally near, the even one.
pub fn nearest(n: u32) -> u32
    ensures { (result ≡ nearest_of n) × (result ≤ n) }
{
    let q = n / 10;
    let last = n % 10;
    if last < 5 {
        q
    } else if last > 5 {
        q + 1
    } else if q % 2 == 0 {
        q
    } else {
        q + 1
    }
}

// Hundredths of a millimetre rounded to tenths, below zero as above it.
pub fn rounded(sum: i32) -> i32
    requires { mag sum ≤ 16777216 }
    ensures { result ≡ rounded_of sum }
{
    if sum < 0 {
        0 - nearest((0 - sum) as u32) as i32
    } else {
        nearest(sum as u32) as i32
    }
}

// The length of a rule.
pub fn length_of(rule: Rule) -> i16
    ensures { result ≡ length_of_rule rule }
{
    rule.length
}

// The lengths of a grammar's rules.
pub fn lengths_of(g: Grammar) -> Lengths
    ensures { result ≡ map length_of_rule g.rules }
{
    let mut l = [0i16; sizes::MAX_RULES];
    for (r, rule) in g.rules.iter().enumerate() {
        l[r] = length_of(*rule);
    }
    l
}

// The sum of the rule lengths of all nodes of an offered derivation, the empty ones included.
pub fn total(l: &[i16], e: &[u16]) -> i32
    requires { (length e.now ≤ output_size) × (length l.now ≡ max_rules) }
    ensures { (result ≡ sum_of (lengths_in l.now) e.now) × (mag result ≤ 16777216) }
{
    let mut sum: i32 = 0;
    for i in 0..e.len() / 2 {
        let r = rule_number(e, i);
        if r < sizes::MAX_RULES {
            sum += i32::from(l[r]);
        }
    }
    sum
}

// The total length of a derivation, in tenths.
pub fn tenths(l: &[i16], e: &[u16]) -> i32
    requires { (length e.now ≤ output_size) × (length l.now ≡ max_rules) }
    ensures { result ≡ tenths_of (lengths_in l.now) e.now }
{
    rounded(total(l, e))
}
