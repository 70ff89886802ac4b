// The first derivation below a node, written from the left: `node` calls `row` for its rule's places, `row` calls `node` for each child.
ghost use Rattle.std.specs.Prelude.{◌+◌, ◌<◌, ◌≤◌, length, IfSome, unwrap_or};
ghost use Rattle.sizes.specs.Sizes.{max_nodes, output_size};
ghost use Rattle.tree_first.specs.Descend.{NodeFirst, RowFirst};

use super::open;
use table_all::made::Made;
use table_layout::layout::{Full, ROWS_SIZE};
use table_suffix::rows::Rows;
use tree_choose::look::{Step, look};
use tree_node::{Span, Tail};

// Writes the first tree of the nonterminal k over the span within the budget. No node of it over the whole span has a nonterminal of the
// mask. The result is the number of its nodes, if there is such a tree.
#[cycle(node_row)]
pub fn node(
    made: &Made,
    k: usize,
    span: Span,
    budget: usize,
    out: &mut [u16],
    at: usize,
) -> Option<usize>
    requires { (at + budget ≤ max_nodes) × (output_size ≤ length out.old) }
    ensures first { NodeFirst made.now.p.now made.now.rules made.now.fits.now made.now.chart.now made.now.tables.now
        k span.i span.j span.mask budget at out.old out.new (unwrap_or result 0) }
    ensures has_nodes { IfSome result (λ n. 0 < n) }
{
    let Span { i, j, mask } = span;
    let mask = tree_node::own_set(mask, k);
    let own = Span { i, j, mask };
    let mut full = [open::UNMADE; sizes::NONTERMINALS];
    let mut rows = [0u16; ROWS_SIZE];
    let r = open::open_node(made, 0, k, own, budget, &mut full, &mut rows)?;
    tree_node::put_node(j - i, r, out, at);
    let at = at + 1;
    let budget = budget - 1;
    let tail = Tail { r, q: 0, a: i };
    let n = row(made, &full, &rows, tail, own, budget, out, at);
    Some(1 + n)
}

// Writes the first row of the tail up to j within the budget, in a node from i to j. The result is the number of its nodes.
#[cycle(node_row)]
pub fn row(
    made: &Made,
    full: &Full,
    rows: &Rows,
    tail: Tail,
    span: Span,
    budget: usize,
    out: &mut [u16],
    at: usize,
) -> usize
    requires { (span.i ≤ tail.a) × (tail.a ≤ span.j) × (at + budget ≤ max_nodes) × (output_size ≤ length out.old) }
    ensures { RowFirst made.now.p.now made.now.rules made.now.fits.now made.now.chart.now made.now.tables.now
        full.now rows.now tail.r tail.q tail.a span.i span.j span.mask budget at out.old out.new result }
{
    let Tail { r, q, a } = tail;
    let Span { i, j, mask } = span;
    let step = look(made.p, made.tables, full, rows, tail, i, j, budget);
    match step {
        Step::No => 0,
        Step::End => 0,
        Step::Byte => {
            let tail = Tail {
                r,
                q: q + 1,
                a: a + 1,
            };
            row(made, full, rows, tail, span, budget, out, at)
        }
        Step::Node { k, b, share } => {
            let mask = tree_node::child_set(j - i, mask, b - a);
            let m = node(made, k, Span { i: a, j: b, mask }, share, out, at).unwrap_or(0);
            let at = at + m;
            let budget = budget - m;
            let tail = Tail { r, q: q + 1, a: b };
            m + row(made, full, rows, tail, span, budget, out, at)
        }
    }
}
