// What the buffer holds at a place of a rule, and the rule of a node, read without going down.
ghost use Rattle.std.specs.Prelude.{◌+◌, ◌<◌, ◌≤◌, length, IfSome, unwrap_or};
ghost use Rattle.sizes.specs.Sizes.{max_rules, max_places, side, max_nodes, output_size};
ghost use Rattle.tree_read.specs.Looked.{BufferLooked, LeavesFound, RuleRead};

use packed::Packed;

// What comes next in a row: nothing that fits, its end, a byte, a node of k up to b with only terminals after it, or a node at another
// place, whose tree has `size` nodes.
#[derive(Clone, Copy)]
pub enum Step {
    No,
    End,
    Byte,
    Final { k: usize, b: usize },
    Node { k: usize, b: usize, size: usize },
}

// Whether the places of rule r from `from` on and below m have only terminals, and so no nodes.
fn only_terminals(p: &Packed, r: usize, from: usize, m: usize) -> bool
    requires { (r < max_rules) × (m ≤ max_places) }
    ensures { LeavesFound p.now r from m result }
{
    for q in from..m {
        if packed::is_nonterminal(p, r, q) {
            return false;
        }
    }
    true
}

// What the buffer holds at node `at` for place q of rule r, from a up to at most j.
pub fn look(
    p: &Packed,
    r: usize,
    q: usize,
    buf: &[u16],
    at: usize,
    a: usize,
    j: usize,
    budget: usize,
) -> Step
    requires { (r < max_rules) × (q ≤ max_places) × (a ≤ j) × (j < side) × (at + budget ≤ max_nodes) × (output_size ≤ length buf.now) }
    ensures { BufferLooked p.now r q buf.now at a j budget result }
{
    let m = packed::count(p, r);
    if m <= q {
        return Step::End;
    }
    if packed::is_nonterminal(p, r, q) {
        if budget == 0 {
            return Step::No;
        }
        let c = usize::from(buf[2 * at]);
        if c > j - a {
            return Step::No;
        }
        let k = packed::value(p, r, q);
        if only_terminals(p, r, q + 1, m) {
            return Step::Final { k, b: a + c };
        }
        let s = tree_size::size(p, buf, at);
        if s <= budget {
            return Step::Node {
                k,
                b: a + c,
                size: s,
            };
        }
        return Step::No;
    }
    if a < j { Step::Byte } else { Step::No }
}

// The rule of node `at`, if the node has one and the budget isn't 0.
pub fn rule_at(buf: &[u16], at: usize, budget: usize) -> Option<usize>
    requires { (at + budget ≤ max_nodes) × (output_size ≤ length buf.now) }
    ensures read { RuleRead buf.now at budget (unwrap_or result max_rules) }
    ensures is_rule { IfSome result (λ r. r < max_rules) }
{
    if budget == 0 {
        return None;
    }
    let r = usize::from(buf[2 * at + 1]);
    if r < sizes::MAX_RULES { Some(r) } else { None }
}
