// The least cost of the places of a rule from one place on, over a span: at a nonterminal, a terminal, or the end of the row. The costs
// of the places after it are in `rests` from `at` on, one for each start.
ghost use Rattle.std.specs.Prelude.{◌≡◌, ◌+◌, ◌<◌, ◌≤◌, min, length};
ghost use Rattle.sizes.specs.Sizes.{side, too_many};
ghost use Rattle.table_cut.specs.Suffix.{AtStart, AtNonterminal, AtTerminal, AtEnd};

use table_layout::layout::{Tables, cost};
use table_layout::least::{TOO_MANY, capped, lower};

// The sum of two numbers of nodes, each capped at 513. It fits 16 bits without a test of its own, so that the loop below takes several ends
// at a time.
fn sum(a: u16, b: u16) -> u16
    ensures { result ≡ min a too_many + min b too_many }
{
    lower(a, TOO_MANY) + lower(b, TOO_MANY)
}

// At the nonterminal k, over no byte: its cost and that of the places after it, unless the span from a to b is empty.
fn at_start(tables: &Tables, k: usize, a: usize, b: usize, rests: &[u16], at: usize) -> u16
    requires { (a ≤ b) × (b < side) × (at + side ≤ length rests.now) }
    ensures { AtStart tables.now k a b rests.now at result }
{
    if a < b {
        return capped(cost(tables, k, a, a), rests[at + a]);
    }
    TOO_MANY
}

// At the nonterminal k, from a to b: the least over its ends c of its own cost and that of the places after it. It reads the end a, the
// ends from `from` on, and b; those between a and `from` cost too much. `last` is its cost up to b, which is not that of the table if the
// nonterminal covers the whole span.
pub fn over_ends(
    tables: &Tables,
    k: usize,
    a: usize,
    from: usize,
    b: usize,
    last: u16,
    rests: &[u16],
    at: usize,
) -> u16
    requires { (a < from) × (a ≤ b) × (b < side) × (at + side ≤ length rests.now) }
    ensures { AtNonterminal tables.now k a from b last rests.now at result }
{
    let mut best = at_start(tables, k, a, b, rests, at);
    for c in from..b {
        best = lower(best, sum(cost(tables, k, a, c), rests[at + c]));
    }
    lower(best, capped(last, rests[at + b]))
}

// At a terminal, from a to b: the cost of the places after it, if it fits the byte at a.
pub fn at_terminal(fits: bool, a: usize, b: usize, rests: &[u16], at: usize) -> u16
    requires { (b < side) × (at + side ≤ length rests.now) }
    ensures { AtTerminal fits a b rests.now at result }
{
    if a < b {
        if fits {
            return rests[at + (a + 1)];
        }
    }
    TOO_MANY
}

// After the last place, from a to b: 0 if no byte is left, else 513.
pub fn at_end(a: usize, b: usize) -> u16
    requires { a ≤ b }
    ensures { AtEnd a b result }
{
    if a < b { TOO_MANY } else { 0 }
}
