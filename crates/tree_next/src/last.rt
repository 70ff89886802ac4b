// The row after the one in the buffer, if its last node moves: nothing after that node moves, and no costs are needed.
ghost use Rattle.std.specs.Prelude.{◌<◌, ◌≤◌, length, IfSome, unwrap_or};
ghost use Rattle.sizes.specs.Sizes.{max_rules, output_size};
ghost use Rattle.tree_next.specs.Advance.{LastNext};

use super::next::node;
use table_all::made::Made;
use tree_node::{Room, Span, child_set};
use tree_read::reach::{Found, reach};

// Writes the row of the places of rule r over the span after the one at node `at`, if its last node moves. The result is the number of
// its nodes, if there is such a node and a tree comes after it.
#[cycle(child_last_node_row_turned)]
pub fn last(made: &Made, r: usize, span: Span, room: Room, buf: &mut [u16]) -> Option<usize>
    requires { (r < max_rules) × (output_size ≤ length buf.old) }
    ensures next { LastNext made.now.p.now made.now.rules made.now.fits.now made.now.chart.now made.now.tables.now
        r span.i span.j span.mask room.budget room.at buf.old buf.new (unwrap_or result 0) }
    ensures has_nodes { IfSome result (λ n. 0 < n) }
{
    let Span { i, j, mask } = span;
    let Room { at, budget } = room;
    let Found {
        k,
        a,
        b,
        at: to,
        budget: share,
    } = reach(made.p, r, 0, buf, at, i, j, budget)?;
    let mask = child_set(j - i, mask, b - a);
    let n = node(made, k, Span { i: a, j: b, mask }, share, buf, to)?;
    Some(to - at + n)
}
