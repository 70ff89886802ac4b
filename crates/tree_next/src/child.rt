// The row after the one in the buffer, if the places after its first node have their last row: that node moves, or its end.
ghost use Rattle.std.specs.Prelude.{◌<◌, ◌≤◌, length, IfSome, unwrap_or};
ghost use Rattle.sizes.specs.Sizes.{output_size};
ghost use Rattle.tree_later.specs.Beyond.{Frame};
ghost use Rattle.tree_next.specs.Advance.{ChildNext};

use super::next::node;
use table_all::made::Made;
use table_layout::layout::Full;
use table_suffix::rows::Rows;
use tree_later::frame::rest_of;
use tree_node::{Child, Room, Span, child_set};
use tree_widen::moved::moved;

// Writes the row of the places from the child's place on, from a to the end of the span, after the one at node `at`, if the places after
// the child have their last row. The result is the number of its nodes, if there is such a row.
#[cycle(child_last_node_row_turned)]
pub fn child(
    made: &Made,
    full: &mut Full,
    rows: &mut Rows,
    child: Child,
    span: Span,
    room: Room,
    buf: &mut [u16],
) -> Option<usize>
    requires { ((span.i ≤ child.a) × (child.b ≤ span.j) × (output_size ≤ length buf.old))
        × Frame made.now.p.now made.now.rules made.now.fits.now made.now.chart.now made.now.tables.now
        child.r span.i span.j span.mask full.old rows.old }
    ensures next { ChildNext made.now.p.now made.now.rules made.now.fits.now made.now.chart.now made.now.tables.now
        child.r child.q child.k child.a child.b span.i span.j span.mask room.budget room.at
        buf.old full.new rows.new buf.new (unwrap_or result 0) }
    ensures has_nodes { IfSome result (λ n. 0 < n) }
{
    let Child { r, q, k, a, b } = child;
    let Span { i, j, mask } = span;
    let Room { at, budget } = room;
    let rest = rest_of(made, r, q, b, span, full, rows);
    if rest > budget {
        return None;
    }
    let mask = child_set(j - i, mask, b - a);
    let share = budget - rest;
    let m = node(made, k, Span { i: a, j: b, mask }, share, buf, at);
    moved(made, full, rows, child, span, room, m, buf)
}
