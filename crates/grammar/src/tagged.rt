// A symbol as three bytes, for rows of numbers that hold a grammar.
ghost use Rattle.std.specs.Prelude.{◌≡◌};
ghost use Rattle.grammar.specs.Tagged.{tag_of, value_of, high_of};

use super::Symbol;

// 0 for a nonterminal, 1 for a terminal, 2 for a range.
pub fn tag_of(s: Symbol) -> u8
    ensures { result ≡ tag_of s }
{
    match s {
        Symbol::Nonterminal(_) => 0,
        Symbol::Terminal(_) => 1,
        Symbol::Range(_, _) => 2,
    }
}

// The number that a symbol holds; of a range its low end.
pub fn value_of(s: Symbol) -> u8
    ensures { result ≡ value_of s }
{
    match s {
        Symbol::Nonterminal(k) => k,
        Symbol::Terminal(m) => m,
        Symbol::Range(low, _) => low,
    }
}

// The high end of a range, and 0 for another symbol.
pub fn high_of(s: Symbol) -> u8
    ensures { result ≡ high_of s }
{
    match s {
        Symbol::Nonterminal(_) => 0,
        Symbol::Terminal(_) => 0,
        Symbol::Range(_, high) => high,
    }
}
