// The first tree of a later rule.
ghost use Rattle.std.specs.Prelude.{◌+◌, ◌<◌, ◌≤◌, length, IfSome, unwrap_or};
ghost use Rattle.sizes.specs.Sizes.{max_rules, output_size};
ghost use Rattle.tree_later.specs.Beyond.{Frame, RulesSought, LaterRule};

use packed::Packed;
use table_all::made::Made;
use table_layout::layout::Full;
use table_suffix::rows::Rows;
use tree_first::first;
use tree_first::open::open_node;
use tree_node::{Room, Span, Tail, put_node};

// Whether no rule of k has a number from `from` on and below `rules`.
fn no_rule(p: &Packed, rules: usize, from: usize, k: usize) -> bool
    requires { rules ≤ max_rules }
    ensures { RulesSought p.now rules from k result }
{
    for r in from..rules {
        if packed::left(p, r) == k {
            return false;
        }
    }
    true
}

// Writes the first tree of k over the span with a rule after r, under a mask that has k. The result is the number of its nodes, if
// there is one within the budget. The costs are made only if k has a later rule.
pub fn later_rule(
    made: &Made,
    full: &mut Full,
    rows: &mut Rows,
    r: usize,
    k: usize,
    span: Span,
    room: Room,
    buf: &mut [u16],
) -> Option<usize>
    requires { ((r < max_rules) × (output_size ≤ length buf.old))
        × Frame made.now.p.now made.now.rules made.now.fits.now made.now.chart.now made.now.tables.now
        r span.i span.j span.mask full.old rows.old }
    ensures later { LaterRule made.now.p.now made.now.rules made.now.fits.now made.now.chart.now made.now.tables.now
        r k span.i span.j span.mask room.budget room.at buf.old buf.new (unwrap_or result 0) }
    ensures has_nodes { IfSome result (λ n. 0 < n) }
{
    let Span { i, j, .. } = span;
    let Room { at, budget } = room;
    if no_rule(made.p, made.rules, r + 1, k) {
        return None;
    }
    let s = open_node(made, r + 1, k, span, budget, full, rows)?;
    put_node(j - i, s, buf, at);
    let at = at + 1;
    let budget = budget - 1;
    let tail = Tail { r: s, q: 0, a: i };
    let n = first::row(made, full, rows, tail, span, budget, buf, at);
    Some(1 + n)
}
