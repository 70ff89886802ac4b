// What comes next at a place of a rule.
ghost use Rattle.std.specs.Prelude.{◌<◌, ◌≤◌};
ghost use Rattle.sizes.specs.Sizes.{side};
ghost use Rattle.tree_choose.specs.Looked.{Looked};

use super::ends::choose_end;
use packed::Packed;
use table_cut::within::Part;
use table_layout::layout::{Full, Tables};
use table_suffix::rows::Rows;
use tree_node::Tail;

// What comes next in a row: nothing, its end, a byte, or a node of the nonterminal k up to b with its share of the budget.
#[derive(Clone, Copy)]
pub enum Step {
    No,
    End,
    Byte,
    Node { k: usize, b: usize, share: usize },
}

// What comes next at the first place of the tail, which ends at j, in a node from i to j; `rows` has the costs of the rule's places.
pub fn look(
    p: &Packed,
    tables: &Tables,
    full: &Full,
    rows: &Rows,
    tail: Tail,
    i: usize,
    j: usize,
    budget: usize,
) -> Step
    requires { (i ≤ tail.a) × (tail.a ≤ j) × (j < side) }
    ensures { Looked p.now tail.r tail.q tables.now full.now rows.now
        i tail.a j budget result }
{
    let Tail { r, q, a } = tail;
    if packed::count(p, r) <= q {
        return Step::End;
    }
    if packed::is_nonterminal(p, r, q) {
        let k = packed::value(p, r, q);
        let part = Part { i, a, from: a, j };
        let Some(b) = choose_end(tables, full, k, part, rows, sizes::SIDE * (q + 1), budget) else {
            return Step::No;
        };
        let share = budget - usize::from(rows[sizes::SIDE * (q + 1) + b]);
        return Step::Node { k, b, share };
    }
    if a < j { Step::Byte } else { Step::No }
}
