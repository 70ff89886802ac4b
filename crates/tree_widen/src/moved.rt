// What follows the first node of a row after that node has been moved on, if it could be.
ghost use Rattle.std.specs.Prelude.{◌<◌, ◌≤◌, length, IfSome, unwrap_or};
ghost use Rattle.sizes.specs.Sizes.{output_size};
ghost use Rattle.tree_widen.specs.Wider.{Moved};

use super::widen::widen;
use table_all::made::Made;
use table_layout::layout::Full;
use table_suffix::rows::Rows;
use tree_first::first;
use tree_node::{Child, Room, Span, Tail};

// Writes what follows the child, which has moved and has m nodes: the first row of the places after it. If it has not moved, it was already
// the last one of its width, and a wider one is written. The result is the number of nodes, if there is such a row.
pub fn moved(
    made: &Made,
    full: &Full,
    rows: &Rows,
    child: Child,
    span: Span,
    room: Room,
    m: Option<usize>,
    buf: &mut [u16],
) -> Option<usize>
    requires { (span.i ≤ child.a) × (child.b ≤ span.j) × IfSome m (λ n. (0 < n) × (n ≤ room.budget)) × (output_size ≤ length buf.old) }
    ensures row { Moved made.now.p.now made.now.rules made.now.fits.now made.now.chart.now made.now.tables.now
        full.now rows.now child.r child.q child.k child.a child.b span.i span.j span.mask room.budget room.at
        (unwrap_or m 0) buf.old buf.new (unwrap_or result 0) }
    ensures has_nodes { IfSome result (λ n. 0 < n) }
{
    let Room { at, budget } = room;
    if let Some(m) = m {
        let at = at + m;
        let budget = budget - m;
        let tail = Tail {
            r: child.r,
            q: child.q + 1,
            a: child.b,
        };
        let n = first::row(made, full, rows, tail, span, budget, buf, at);
        return Some(m + n);
    }
    widen(made, full, rows, child, span, room, buf)
}
