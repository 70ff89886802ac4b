// The row after the one in the buffer, in place, if its last node does not move: its later places move first, then its first node, then
// that node's end.
ghost use Rattle.std.specs.Prelude.{◌+◌, ◌<◌, ◌≤◌, length, IfSome, unwrap_or};
ghost use Rattle.sizes.specs.Sizes.{max_nodes, output_size};
ghost use Rattle.tree_later.specs.Beyond.{Frame};
ghost use Rattle.tree_next.specs.Advance.{RowNext};

use super::child::child;
use table_all::made::Made;
use table_layout::layout::Full;
use table_suffix::rows::Rows;
use tree_node::{Child, Room, Span, Tail};
use tree_read::look::{Step, look};

// Writes the row of the tail, from a to j inside a span from i to j, after the one at node `at`, whose last node does not move.
// The result is the number of its nodes, if there is such a row.
#[cycle(child_last_node_row_turned)]
pub fn row(
    made: &Made,
    full: &mut Full,
    rows: &mut Rows,
    tail: Tail,
    span: Span,
    budget: usize,
    buf: &mut [u16],
    at: usize,
) -> Option<usize>
    requires { ((span.i ≤ tail.a) × (tail.a ≤ span.j) × (at + budget ≤ max_nodes) × (output_size ≤ length buf.old))
        × Frame made.now.p.now made.now.rules made.now.fits.now made.now.chart.now made.now.tables.now
        tail.r span.i span.j span.mask full.old rows.old }
    ensures next { RowNext made.now.p.now made.now.rules made.now.fits.now made.now.chart.now made.now.tables.now
        tail.r tail.q tail.a span.i span.j span.mask budget at buf.old full.new rows.new buf.new (unwrap_or result 0) }
    ensures has_nodes { IfSome result (λ n. 0 < n) }
{
    let Tail { r, q, a } = tail;
    let j = span.j;
    let step = look(made.p, r, q, buf, at, a, j, budget);
    match step {
        Step::No => None,
        Step::End => None,
        Step::Byte => {
            let tail = Tail {
                r,
                q: q + 1,
                a: a + 1,
            };
            row(made, full, rows, tail, span, budget, buf, at)
        }
        Step::Final { k: _, b: _ } => None,
        Step::Node { k, b, size } => {
            let tail = Tail { r, q: q + 1, a: b };
            let later = row(made, full, rows, tail, span, budget - size, buf, at + size);
            if let Some(n) = later {
                return Some(size + n);
            }
            let first = Child { r, q, k, a, b };
            let room = Room { at, budget };
            child(made, full, rows, first, span, room, buf)
        }
    }
}
