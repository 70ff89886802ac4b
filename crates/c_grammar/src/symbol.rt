// The symbol that two numbers of a flat row mean. All 16 bits of a number count: one that is too large for its place is read as a value
// that check 8 refuses.
ghost use Rattle.std.specs.Prelude.{◌≡◌};
ghost use Rattle.c_grammar.specs.Flat.{low_end, high_end, row_symbol};

use grammar::Symbol;

// The low and the high end of a range: the value holds both.
fn low_end(value: u16) -> u8
    ensures { result ≡ low_end value }
{
    (value % 256) as u8
}

fn high_end(value: u16) -> u8
    ensures { result ≡ high_end value }
{
    (value / 256) as u8
}

// The symbol of a tag and a value. Anything but a nonterminal, a terminal of one byte or a range is read as nonterminal 255.
pub fn symbol(tag: u16, value: u16) -> Symbol
    ensures { result ≡ row_symbol tag value }
{
    let v = numbers::byte(value);
    match tag {
        0 => Symbol::Nonterminal(v),
        1 => {
            if value <= 255 {
                Symbol::Terminal(v)
            } else {
                Symbol::Nonterminal(255)
            }
        }
        2 => Symbol::Range(low_end(value), high_end(value)),
        _ => Symbol::Nonterminal(255),
    }
}
