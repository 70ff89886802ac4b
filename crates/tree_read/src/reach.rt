// The last node of a row in a buffer: the one with only terminals after it. Its end stays the same, and its budget is all that the nodes
// before it leave, so no costs are needed.
ghost use Rattle.std.specs.Prelude.{◌+◌, ◌<◌, ◌≤◌, length};
ghost use Rattle.sizes.specs.Sizes.{max_rules, max_places, side, max_nodes, output_size};
ghost use Rattle.tree_read.specs.Reached.{LastReached};

use super::look::{Step, look};
use packed::Packed;

// The last node of a row: it is of the nonterminal k from a to b, is stored at node `at`, and has a budget.
#[derive(Clone, Copy)]
pub struct Found {
    pub k: usize,
    pub a: usize,
    pub b: usize,
    pub at: usize,
    pub budget: usize,
}

// The last node of the row at node `at`, for the places of rule r from q on, from a to j, if there is one.
pub fn reach(
    p: &Packed,
    r: usize,
    q: usize,
    buf: &[u16],
    at: usize,
    a: usize,
    j: usize,
    budget: usize,
) -> Option<Found>
    requires { (r < max_rules) × (q ≤ max_places) × (a ≤ j) × (j < side) × (at + budget ≤ max_nodes) × (output_size ≤ length buf.now) }
    ensures { LastReached p.now r q buf.now at a j budget result }
{
    let step = look(p, r, q, buf, at, a, j, budget);
    match step {
        Step::No => None,
        Step::End => None,
        Step::Byte => reach(p, r, q + 1, buf, at, a + 1, j, budget),
        Step::Final { k, b } => Some(Found {
            k,
            a,
            b,
            at,
            budget,
        }),
        Step::Node { k: _, b, size } => reach(p, r, q + 1, buf, at + size, b, j, budget - size),
    }
}
