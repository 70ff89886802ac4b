// The derivation after the one in a buffer, once the tables are made.
ghost use Rattle.std.specs.Prelude.{◌<◌, ◌≤◌, length, IfSome, unwrap_or};
ghost use Rattle.sizes.specs.Sizes.{output_size};
ghost use Rattle.next_made.specs.Advanced.{RootNext};

use table_all::made::Made;
use tree_next::next::node;
use tree_node::{Root, Span};

// Writes the derivation after the one at the front of the buffer. The result is the number of its nodes; if there is no such
// derivation, the buffer is unchanged.
pub fn advance_root(made: &Made, root: Root, buf: &mut [u16]) -> Option<usize>
    requires { output_size ≤ length buf.old }
    ensures next { RootNext made.now.p.now made.now.rules made.now.fits.now made.now.chart.now made.now.tables.now
        root.start root.n buf.old buf.new (unwrap_or result 0) }
    ensures has_nodes { IfSome result (λ n. 0 < n) }
{
    let Root { start, n } = root;
    let whole = Span {
        i: 0,
        j: n,
        mask: 0,
    };
    node(made, start, whole, sizes::MAX_NODES, buf, 0)
}
