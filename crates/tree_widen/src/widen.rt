// The first row with a wider first node than the one in the buffer.
ghost use Rattle.std.specs.Prelude.{◌<◌, ◌≤◌, length, IfSome, unwrap_or};
ghost use Rattle.sizes.specs.Sizes.{output_size};
ghost use Rattle.tree_widen.specs.Wider.{Widened};

use table_all::made::Made;
use table_cut::within::Part;
use table_layout::layout::Full;
use table_suffix::rows::Rows;
use tree_choose::ends::choose_end;
use tree_first::first;
use tree_node::{Child, Room, Span, Tail, child_set};

// Writes the first row of the places from the child's place on, from a to the end of the span, in which the node of k ends after b.
// The result is the number of its nodes, if there is one within the budget.
pub fn widen(
    made: &Made,
    full: &Full,
    rows: &Rows,
    child: Child,
    span: Span,
    room: Room,
    buf: &mut [u16],
) -> Option<usize>
    requires { (span.i ≤ child.a) × (child.b ≤ span.j) × (output_size ≤ length buf.old) }
    ensures wider { Widened made.now.p.now made.now.rules made.now.fits.now made.now.chart.now made.now.tables.now
        full.now rows.now child.r child.q child.k child.a child.b span.i span.j span.mask room.budget room.at
        buf.old buf.new (unwrap_or result 0) }
    ensures has_nodes { IfSome result (λ n. 0 < n) }
{
    let Child { r, q, k, a, b } = child;
    let Span { i, j, mask } = span;
    let Room { at, budget } = room;
    let part = Part {
        i,
        a,
        from: b + 1,
        j,
    };
    let c = choose_end(
        made.tables,
        full,
        k,
        part,
        rows,
        sizes::SIDE * (q + 1),
        budget,
    )?;
    let mask = child_set(j - i, mask, c - a);
    let share = budget - usize::from(rows[sizes::SIDE * (q + 1) + c]);
    let m = first::node(made, k, Span { i: a, j: c, mask }, share, buf, at)?;
    let at = at + m;
    let budget = budget - m;
    let tail = Tail { r, q: q + 1, a: c };
    let n = first::row(made, full, rows, tail, span, budget, buf, at);
    Some(m + n)
}
