// The tree after the one in the buffer, if the last node of the row below it does not move: another node of the row moves, or the rule
// changes. The frame of the node is this function's own.
ghost use Rattle.std.specs.Prelude.{◌<◌, ◌≤◌, length, IfSome, unwrap_or};
ghost use Rattle.sizes.specs.Sizes.{max_rules, output_size};
ghost use Rattle.tree_next.specs.Advance.{Turned};

use super::row::row;
use table_all::made::Made;
use table_layout::layout::ROWS_SIZE;
use tree_first::open::UNMADE;
use tree_later::later::later_rule;
use tree_node::{Room, Span, Tail};

// Writes the tree of k over the span, under a mask that has k, after the one of rule r at node `at`. The result is the number of its
// nodes, if there is such a tree.
#[cycle(child_last_node_row_turned)]
pub fn turned(
    made: &Made,
    r: usize,
    k: usize,
    span: Span,
    room: Room,
    buf: &mut [u16],
) -> Option<usize>
    requires { (r < max_rules) × (0 < room.budget) × (output_size ≤ length buf.old) }
    ensures next { Turned made.now.p.now made.now.rules made.now.fits.now made.now.chart.now made.now.tables.now
        r k span.i span.j span.mask room.budget room.at buf.old buf.new (unwrap_or result 0) }
    ensures has_nodes { IfSome result (λ n. 0 < n) }
{
    let Room { at, budget } = room;
    let at = at + 1;
    let budget = budget - 1;
    let mut full = [UNMADE; sizes::NONTERMINALS];
    let mut rows = [0u16; ROWS_SIZE];
    let tail = Tail { r, q: 0, a: span.i };
    let moved = row(made, &mut full, &mut rows, tail, span, budget, buf, at);
    if let Some(n) = moved {
        return Some(1 + n);
    }
    later_rule(made, &mut full, &mut rows, r, k, span, room, buf)
}
