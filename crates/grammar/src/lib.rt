// The declared types of a grammar (document 01: a loaded book), and check 8 over any struct handed in.
#![tactic(auto)]

pub mod building;
mod records;
pub mod tagged;

ghost use Rattle.std.specs.Prelude.{◌≡◌};
ghost use Rattle.grammar.specs.Zero.{zero_place, zero_rule, zero_grammar};
ghost use Rattle.grammar.specs.Valid.{valid_grammar};

use records::valid_rule;

// What a place holds: a nonterminal (kind), a terminal (mark), or a range that any byte from its low to its high end fits.
#[derive(Clone, Copy)]
pub enum Symbol {
    Nonterminal(u8),
    Terminal(u8),
    Range(u8, u8),
}

// A place of a rule.
#[derive(Clone, Copy)]
pub struct Place {
    pub symbol: Symbol,
}

// A rule record: its left side, its length in hundredths of a millimetre, how many of its places are used, the first and the last year in
// which it holds, and its name, which is zeros if it has none.
#[derive(Clone, Copy)]
pub struct Rule {
    pub left: u8,
    pub length: i16,
    pub count: usize,
    pub places: [Place; sizes::MAX_PLACES],
    pub first: u16,
    pub last: u16,
    pub name: [u8; names::NAME],
}

// A loaded grammar (book): its start symbol, how many of its rules are used, and its nullable depth (blank depth).
#[derive(Clone, Copy)]
pub struct Grammar {
    pub start: u8,
    pub count: usize,
    pub depth: u8,
    pub rules: [Rule; sizes::MAX_RULES],
}

// What is unused is handed back as zeros: a place, a rule record, a whole grammar.
pub fn zero_place() -> Place
    ensures { result ≡ zero_place }
{
    Place {
        symbol: Symbol::Nonterminal(0),
    }
}

pub fn zero_rule() -> Rule
    ensures { result ≡ zero_rule }
{
    Rule {
        left: 0,
        length: 0,
        count: 0,
        places: [zero_place(); sizes::MAX_PLACES],
        first: 0,
        last: 0,
        name: [0u8; names::NAME],
    }
}

pub fn zero_grammar() -> Grammar
    ensures { result ≡ zero_grammar }
{
    Grammar {
        start: 0,
        count: 0,
        depth: 0,
        rules: [zero_rule(); sizes::MAX_RULES],
    }
}

// Check 8, for any struct. It looks only at what is used, as the counts say. Each name becomes a word once and is compared with the words
// before it; a rule without a name has the word 0, which is compared with none. One loop does it all: a function for the names alone would
// copy the grammar.
pub fn valid(g: Grammar) -> bool
    ensures { result ≡ valid_grammar g }
{
    let n = g.count;
    if g.start > 31 || n > sizes::MAX_RULES {
        return false;
    }
    let mut words = [0u64; sizes::MAX_RULES];
    for (i, rule) in g.rules[..n].iter().enumerate() {
        if !valid_rule(*rule) {
            return false;
        }
        let w = names::word(rule.name);
        if w != 0 && names::earlier(&words, i, w) {
            return false;
        }
        words[i] = w;
    }
    true
}
