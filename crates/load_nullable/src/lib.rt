// The search for the nullable nonterminals of a grammar, and the nullable depth.
#![tactic(auto)]

ghost use Rattle.std.specs.Prelude.{true, ◌≡◌, take};
ghost use Rattle.cfg.specs.Nullable.{level_above, depth_of};
ghost use Rattle.grammar.specs.Valid.{valid_place, valid_rule, valid_grammar};
ghost use Rattle.grammar.specs.View.{whole_of};
ghost use Rattle.load_nullable.specs.Nullable.{place_known, rule_known, add_head, pass, ExactNullable, Searched};

use grammar::{Grammar, Place, Rule, Symbol};

// Whether the place holds a known nonterminal.
pub fn place_in(p: Place, known: u32) -> bool
    requires { valid_place p ≡ true }
    ensures { result ≡ place_known known p }
{
    let s = p.symbol;
    match s {
        Symbol::Nonterminal(k) => sets::has(known, k as usize),
        Symbol::Terminal(_) => false,
        Symbol::Range(_, _) => false,
    }
}

// Whether each place of the rule holds a known nonterminal.
pub fn rule_in(rule: Rule, known: u32) -> bool
    requires { valid_rule rule ≡ true }
    ensures { result ≡ rule_known known rule }
{
    for p in &rule.places[..rule.count] {
        if !place_in(*p, known) {
            return false;
        }
    }
    true
}

// What was found so far, and the rule's left side if each place of the rule holds a known nonterminal.
pub fn with_head(rule: Rule, known: u32, found: u32) -> u32
    requires { valid_rule rule ≡ true }
    ensures { result ≡ add_head rule known found }
{
    let k = rule.left;
    if rule_in(rule, known) {
        sets::with(found, k as usize)
    } else {
        found
    }
}

// One pass over all rules. Each rule sees what the rules before it added.
pub fn nullable_pass(g: Grammar, known: u32) -> u32
    requires { valid_grammar g ≡ true }
    ensures { result ≡ pass (take g.count g.rules) known }
{
    let mut s = known;
    for rule in &g.rules[..g.count] {
        s = with_head(*rule, s, s);
    }
    s
}

// What the search gives back: the nonterminals that it found, as a set, and how many passes it made.
#[derive(Clone, Copy)]
pub struct Sought {
    pub set: u32,
    pub passes: u8,
}

// The nullable nonterminals, found by passes until one adds nothing. That pass is counted too.
pub fn search(g: Grammar) -> Sought
    requires { valid_grammar g ≡ true }
    ensures { Searched g result }
{
    let mut known = 0;
    let mut next = nullable_pass(g, known);
    let mut passes = 1u8;
    while next != known {
        known = next;
        next = nullable_pass(g, known);
        passes += 1;
    }
    Sought {
        set: known,
        passes: passes,
    }
}

// The level above a level: the left sides of the rules each of whose places holds a nonterminal of the level. A find does not count at
// once.
pub fn level_above(g: Grammar, level: u32) -> u32
    requires { valid_grammar g ≡ true }
    ensures { result ≡ level_above (whole_of g) level }
{
    let mut s = 0;
    for rule in &g.rules[..g.count] {
        s = with_head(*rule, level, s);
    }
    s
}

// The nullable depth: how many levels there are above the empty one, up to that of all nullable nonterminals.
pub fn nullable_depth(g: Grammar, nullable: u32) -> u8
    requires { (valid_grammar g ≡ true) × ExactNullable g nullable }
    ensures { result ≡ depth_of (whole_of g) }
{
    let mut level = 0;
    let mut d = 0u8;
    while level != nullable {
        level = level_above(g, level);
        d += 1;
    }
    d
}
