// The tree after the one in the buffer, in place. The last node of the row below it moves first, which needs no frame; then what is before
// that node moves, and then the rule. Nothing is written until the successor is certain.
ghost use Rattle.std.specs.Prelude.{◌+◌, ◌<◌, ◌≤◌, length, IfSome, unwrap_or};
ghost use Rattle.sizes.specs.Sizes.{max_nodes, output_size};
ghost use Rattle.tree_next.specs.Advance.{NodeNext};

use super::last::last;
use super::turned::turned;
use table_all::made::Made;
use tree_node::{Room, Span, own_set};
use tree_read::look::rule_at;

// Writes the tree of k over the span after the one at node `at`. The result is the number of its nodes; if there is no such tree, the
// buffer is unchanged.
#[cycle(child_last_node_row_turned)]
pub fn node(
    made: &Made,
    k: usize,
    span: Span,
    budget: usize,
    buf: &mut [u16],
    at: usize,
) -> Option<usize>
    requires { (at + budget ≤ max_nodes) × (output_size ≤ length buf.old) }
    ensures next { NodeNext made.now.p.now made.now.rules made.now.fits.now made.now.chart.now made.now.tables.now
        k span.i span.j span.mask budget at buf.old buf.new (unwrap_or result 0) }
    ensures has_nodes { IfSome result (λ n. 0 < n) }
{
    let Span { i, j, mask } = span;
    let r = rule_at(buf, at, budget)?;
    let mask = own_set(mask, k);
    let own = Span { i, j, mask };
    let below = Room {
        at: at + 1,
        budget: budget - 1,
    };
    if let Some(n) = last(made, r, own, below, buf) {
        return Some(1 + n);
    }
    turned(made, r, k, own, Room { at, budget }, buf)
}
