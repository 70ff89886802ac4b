// Where a child ends: at the first position for which the child and the places after it cost at most the budget together.
ghost use Rattle.std.specs.Prelude.{◌≡◌, ◌+◌, ◌<◌, ◌≤◌, IfSome, unwrap_or};
ghost use Rattle.sizes.specs.Sizes.{side};
ghost use Rattle.theory_costs.specs.Cut.{within};
ghost use Rattle.table_layout.specs.Layout.{cost_in, full_in, rows_size};
ghost use Rattle.tree_choose.specs.Chosen.{EndChosen};

use table_cut::within::Part;
use table_layout::layout::{Full, Tables, cost, full_of};
use table_suffix::rows::Rows;

// The cost of the nonterminal k from a to b inside a span from i to j: from `full` over the whole span, else from the tables.
fn piece(tables: &Tables, full: &Full, k: usize, i: usize, a: usize, j: usize, b: usize) -> u16
    requires { (i ≤ a) × (a ≤ b) × (b ≤ j) × (j < side) }
    ensures { result ≡ within i j (full_in full.now) (cost_in tables.now) k a b }
{
    if a != i {
        return cost(tables, k, a, b);
    }
    if b != j {
        return cost(tables, k, a, b);
    }
    full_of(full, k)
}

// The sum of two numbers of nodes, not capped.
fn sum(a: u16, b: u16) -> usize
    ensures { result ≡ a + b }
{
    usize::from(a) + usize::from(b)
}

// The smallest end of the part, from its `from` on, such that the nonterminal k up to it and the places after it cost at most the budget
// together, if there is one up to j. The costs of those places are in `rows` from `at` on.
pub fn choose_end(
    tables: &Tables,
    full: &Full,
    k: usize,
    part: Part,
    rows: &Rows,
    at: usize,
    budget: usize,
) -> Option<usize>
    requires { (part.i ≤ part.a) × (part.a ≤ part.from) × (part.from ≤ part.j + 1) × (part.j < side)
        × (at + side ≤ rows_size) }
    ensures chosen { EndChosen tables.now full.now k part.i part.a part.from part.j
        rows.now at budget (unwrap_or result (part.j + 1)) }
    ensures inside { IfSome result (λ b. b ≤ part.j) }
{
    let Part { i, a, from, j } = part;
    for b in from..=j {
        if sum(piece(tables, full, k, i, a, j, b), rows[at + b]) <= budget {
            return Some(b);
        }
    }
    None
}
