// Writes the text of a derivation, node by node.
#![tactic(auto)]

ghost use Rattle.std.specs.Prelude.{[], ◌∷◌, ◌++◌, ◌≡◌, ◌+◌, ◌<◌, ◌≤◌, length, get_or};
ghost use Rattle.sizes.specs.Sizes.{max_rules, max_places, max_nodes, max_input};
ghost use Rattle.packed.specs.Packed.{symbol_in};
ghost use Rattle.theory_words.specs.Words.{opening, closing, leaf_text};
ghost use Rattle.words_text.specs.Names.{names_size, text_in};
ghost use Rattle.words_write.specs.Cursor.{CursorMoved, look_of, comma_before, Writable, NodeWritten};

use check_walk::offered::rule_number;
use packed::Packed;
use print_number::put_byte;
use words_text::Names;

// The bytes between names and digits.
const OPENING: u8 = 0x28;

const CLOSING: u8 = 0x29;

const COMMA: u8 = 0x2C;

// Where the writer is: at a node of the derivation, at a byte of the input, at an index of the buffer.
#[derive(Clone, Copy)]
pub struct Cursor {
    pub node: usize,
    pub byte: usize,
    pub at: usize,
}

// What is at a place of a rule.
#[derive(Clone, Copy)]
pub enum Place {
    Leaf,
    Node,
}

// What is at place q of rule r.
fn look(p: &Packed, r: usize, q: usize) -> Place
    requires { (r < max_rules) × (q < max_places) }
    ensures { result ≡ look_of (symbol_in p.now r q) }
{
    if packed::is_nonterminal(p, r, q) {
        Place::Node
    } else {
        Place::Leaf
    }
}

// Writes the text of a node's rule and `(`. The cursor goes to the node after it.
fn open_node(names: &Names, r: usize, here: Cursor, out: &mut [u8]) -> Cursor
    requires { (r < max_rules) × (length names.now ≡ names_size) × (here.node < max_nodes)
        × (here.at + length (text_in names.now r) < length out.old) }
    ensures { CursorMoved (text_in names.now r ++ (opening ∷ [])) 1 0 here result out.old out.new }
{
    let Cursor { node, byte, at } = here;
    let end = words_text::put_rule(names, r, at, out);
    let next = put_byte(OPENING, end, out);
    Cursor {
        node: node + 1,
        byte,
        at: next,
    }
}

// Writes `)`.
fn close_node(here: Cursor, out: &mut [u8]) -> Cursor
    requires { here.at < length out.old }
    ensures { CursorMoved (closing ∷ []) 0 0 here result out.old out.new }
{
    let Cursor { node, byte, at } = here;
    let next = put_byte(CLOSING, at, out);
    Cursor {
        node,
        byte,
        at: next,
    }
}

// Writes a comma before each place but the first.
fn put_comma(q: usize, here: Cursor, out: &mut [u8]) -> Cursor
    requires { here.at + length (comma_before q) ≤ length out.old }
    ensures { CursorMoved (comma_before q) 0 0 here result out.old out.new }
{
    let Cursor { node, byte, at } = here;
    if q == 0 {
        return Cursor { node, byte, at };
    }
    let next = put_byte(COMMA, at, out);
    Cursor {
        node,
        byte,
        at: next,
    }
}

// Writes the byte of the input as a leaf. The cursor goes to the byte after it.
fn put_leaf(w: &[u8], here: Cursor, out: &mut [u8]) -> Cursor
    requires { (here.byte < length w.now) × (length w.now ≤ max_input) × (here.at + 3 ≤ length out.old) }
    ensures { CursorMoved (leaf_text (get_or w.now here.byte 0)) 0 1 here result out.old out.new }
{
    let Cursor { node, byte, at } = here;
    let next = words_text::put_leaf(w[byte], at, out);
    Cursor {
        node,
        byte: byte + 1,
        at: next,
    }
}

// Writes the node at the cursor: the text of its rule, `(`, what is at each of its places, `)`. At most `left` nodes are left.
pub fn put_node(
    names: &Names,
    p: &Packed,
    w: &[u8],
    e: &[u16],
    left: usize,
    here: Cursor,
    out: &mut [u8],
) -> Cursor
    requires { Writable names.now p.now w.now e.now left here (length out.old) }
    ensures { NodeWritten names.now p.now w.now e.now here result
        out.old out.new }
{
    let r = rule_number(e, here.node);
    let n = packed::count(p, r);
    let mut cursor = open_node(names, r, here, out);
    for q in 0..n {
        let next = put_comma(q, cursor, out);
        match look(p, r, q) {
            Place::Leaf => {
                cursor = put_leaf(w, next, out);
            }
            Place::Node => {
                cursor = put_node(names, p, w, e, left - 1, next, out);
            }
        }
    }
    close_node(cursor, out)
}
