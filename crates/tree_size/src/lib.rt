// Where a subtree ends in a buffer with the code of a forest: for each node, in preorder, the number of bytes that it covers and its rule.
// The code counts the children that are still to come, and reads no input.
#![tactic(auto)]

ghost use Rattle.std.specs.Prelude.{◌≡◌, ◌<◌, ◌≤◌, length};
ghost use Rattle.sizes.specs.Sizes.{max_nodes, output_size, max_rules, max_places};
ghost use Rattle.packed.specs.Packed.{symbol_in};
ghost use Rattle.tree_size.specs.Standing.{child_of, children_in, Sized};

use packed::Packed;

// 1 if place q of rule r holds a nonterminal, else 0.
fn child(p: &Packed, r: usize, q: usize) -> usize
    requires { (r < max_rules) × (q < max_places) }
    ensures { (result ≡ child_of (symbol_in p.now r q)) × (result ≤ 1) }
{
    if packed::is_nonterminal(p, r, q) {
        1
    } else {
        0
    }
}

// How many places of rule r hold a nonterminal.
fn children(p: &Packed, r: usize) -> usize
    requires { r < max_rules }
    ensures { (result ≡ children_in p.now r) × (result ≤ 8) }
{
    let count = packed::count(p, r);
    let mut n = 0;
    for q in 0..count {
        n += child(p, r, q);
    }
    n
}

// How many nodes the tree at node `at` of the buffer has. If no tree of the grammar is there, the result is some number of nodes within the
// buffer.
pub fn size(p: &Packed, buf: &[u16], at: usize) -> usize
    requires { (output_size ≤ length buf.now) × (at ≤ max_nodes) }
    ensures { Sized p.now buf.now at result }
{
    let mut todo = 1;
    let mut n = 0;
    while todo > 0 {
        if at + n >= sizes::MAX_NODES {
            return n;
        }
        let r = usize::from(buf[2 * (at + n) + 1]);
        if r >= sizes::MAX_RULES {
            return n;
        }
        todo = todo - 1 + children(p, r);
        n += 1;
    }
    n
}
