// One node of a derivation: the numbers that locate it, the masks for it and below it, and the writing of its two numbers.
#![tactic(auto)]

ghost use Rattle.std.specs.Prelude.{◌≡◌, ◌+◌, ◌<◌, ◌≤◌, length};
ghost use Rattle.sizes.specs.Sizes.{max_rules, max_places, nonterminals, side, max_nodes, output_size};
ghost use Rattle.sets.specs.Set.{insert};
ghost use Rattle.theory_enumeration.specs.Rows.{SameSpan};
ghost use Rattle.tree_node.specs.Numbers.{NodePut};

// The span of a node, from i to j, and the nonterminals that no node over the whole of it may have.
#[derive(Clone, Copy)]
pub struct Span {
    pub i: usize,
    pub j: usize,
    pub mask: u32,
    pub ghost ordered: { i ≤ j },
    pub ghost inside: { j < side },
}

// The trees of a whole input: those of the start symbol over n bytes.
#[derive(Clone, Copy)]
pub struct Root {
    pub start: usize,
    pub n: usize,
    pub ghost inside: { n < side },
}

// How many nodes a tree or a row may have, and the node at which it is written.
#[derive(Clone, Copy)]
pub struct Room {
    pub budget: usize,
    pub at: usize,
    pub ghost fits: { at + budget ≤ max_nodes },
}

// The places of rule r from q on, from position a on.
#[derive(Clone, Copy)]
pub struct Tail {
    pub r: usize,
    pub q: usize,
    pub a: usize,
    pub ghost of_rule: { r < max_rules },
    pub ghost of_places: { q ≤ max_places },
}

// The node of k from a to b, at place q of rule r.
#[derive(Clone, Copy)]
pub struct Child {
    pub r: usize,
    pub q: usize,
    pub k: usize,
    pub a: usize,
    pub b: usize,
    pub ghost of_rule: { r < max_rules },
    pub ghost of_places: { q < max_places },
    pub ghost ordered: { a ≤ b },
}

// The mask with the nonterminal k added.
pub fn own_set(mask: u32, k: usize) -> u32
    ensures { k < nonterminals → result ≡ insert k mask }
{
    if k < sizes::NONTERMINALS {
        sets::with(mask, k)
    } else {
        mask
    }
}

// The part of the mask over `cover` bytes that applies to a child over c bytes: all of it if c is `cover`, else nothing.
pub fn child_set(cover: usize, mask: u32, c: usize) -> u32
    ensures { SameSpan cover mask c result }
{
    if c == cover { mask } else { 0 }
}

// Writes the numbers of node `at`: how many bytes it covers, and its rule.
pub fn put_node(c: usize, r: usize, out: &mut [u16], at: usize)
    requires { (c < side) × (r < max_rules) × (at < max_nodes) × (output_size ≤ length out.old) }
    ensures { NodePut c r at out.old out.new }
{
    out[2 * at] = c as u16;
    out[2 * at + 1] = r as u16;
}
