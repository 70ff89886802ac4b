// The checker proper. `node` checks one node and calls `row` for the places of its rule; `row` calls `node` for each nonterminal.
ghost use Rattle.std.specs.Prelude.{[], ◌∷◌, ◌*◌, ◌+◌, ◌-◌, ◌<◌, ◌≤◌, length, IfSome, unwrap_or};
ghost use Rattle.cfg.specs.Grammar.{nonterminal};
ghost use Rattle.packed.specs.Packed.{places_from, place_count, cfg_in};
ghost use Rattle.check_walk.specs.Walk.{Walked, Answers, Room, RuleOpens, OfferedLooked};
ghost use Rattle.sizes.specs.Sizes.{too_many, max_rules, max_nodes};

use super::offered::number;
use packed::Packed;
use tree_node::child_set;

// What comes next in a row: nothing that fits, its end, a byte, or a node with its nonterminal and the number of its bytes.
#[derive(Clone, Copy)]
pub enum Step {
    No,
    End,
    Byte,
    Node(usize, usize),
}

// Where a row continues: at node `at`, over the bytes `from` to `to`.
#[derive(Clone, Copy)]
struct Here {
    at: usize,
    from: usize,
    to: usize,
}

// The rule of node `at`, if the node covers c bytes, is a node of k, and the mask does not have k.
fn rule_at(
    p: &Packed,
    e: &[u16],
    n: usize,
    mask: u32,
    k: usize,
    c: usize,
    at: usize,
) -> Option<usize>
    requires { (2 * n ≤ length e.now) × (n ≤ max_nodes) }
    ensures rule { Answers (RuleOpens p.now e.now n mask k c at) max_rules (unwrap_or result max_rules) }
    ensures is_rule { IfSome result (λ r. r < max_rules) }
{
    if k >= sizes::NONTERMINALS {
        return None;
    }
    if at >= n {
        return None;
    }
    if number(e, 2 * at) != c {
        return None;
    }
    let r = number(e, 2 * at + 1);
    if r >= sizes::MAX_RULES {
        return None;
    }
    if packed::left(p, r) != k {
        return None;
    }
    if sets::has(mask, k) { None } else { Some(r) }
}

// What comes next at place q of rule r.
fn look(p: &Packed, w: &[u8], e: &[u16], n: usize, r: usize, q: usize, here: Here) -> Step
    requires { (r < max_rules) × (2 * n ≤ length e.now) × (n ≤ max_nodes) × (here.from ≤ here.to) × (here.to ≤ length w.now) }
    ensures { OfferedLooked p.now w.now e.now n r q here.at here.from here.to result }
{
    let Here { at, from, to } = here;
    if packed::count(p, r) <= q {
        if from == to {
            return Step::End;
        }
        return Step::No;
    }
    if packed::is_nonterminal(p, r, q) {
        if at < n {
            let c = number(e, 2 * at);
            if c <= to - from {
                return Step::Node(packed::value(p, r, q), c);
            }
        }
        return Step::No;
    }
    if from < to {
        if packed::fits_at(p, r, q, w, from) {
            return Step::Byte;
        }
    }
    Step::No
}

// Checks that a node of the nonterminal k over the bytes `from` to `to` begins at node `at`. The answer is the node after its subtree, if
// such a node is there.
#[cycle(node_row)]
pub fn node(
    p: &Packed,
    w: &[u8],
    e: &[u16],
    n: usize,
    cover: usize,
    above: u32,
    k: usize,
    at: usize,
    from: usize,
    to: usize,
) -> Option<usize>
    requires { Room w.now e.now n cover at from to }
    ensures walked { Answers (Walked (cfg_in 0 p.now) w.now e.now n cover above
        (nonterminal k ∷ []) at from to) too_many (unwrap_or result too_many) }
    ensures inside { IfSome result (λ m. m ≤ max_nodes) }
{
    let c = to - from;
    let mask = child_set(cover, above, c);
    let r = rule_at(p, e, n, mask, k, c, at)?;
    row(p, w, e, n, c, sets::with(mask, k), r, 0, at + 1, from, to)
}

// Checks the row for the places of rule r from place q on. The answer is the node after the row, if there is such a row.
#[cycle(node_row)]
pub fn row(
    p: &Packed,
    w: &[u8],
    e: &[u16],
    n: usize,
    cover: usize,
    above: u32,
    r: usize,
    q: usize,
    at: usize,
    from: usize,
    to: usize,
) -> Option<usize>
    requires { (r < max_rules) × Room w.now e.now n cover at from to }
    ensures walked { Answers (Walked (cfg_in 0 p.now) w.now e.now n cover above
        (places_from p.now r q (place_count p.now r - q)) at from to) too_many (unwrap_or result too_many) }
    ensures inside { IfSome result (λ m. m ≤ max_nodes) }
{
    let step = look(p, w, e, n, r, q, Here { at, from, to });
    match step {
        Step::No => None,
        Step::End => Some(at),
        Step::Byte => row(p, w, e, n, cover, above, r, q + 1, at, from + 1, to),
        Step::Node(k, c) => {
            let next = node(p, w, e, n, cover, above, k, at, from, from + c)?;
            row(p, w, e, n, cover, above, r, q + 1, next, from + c, to)
        }
    }
}
