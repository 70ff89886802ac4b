// Writes the line of a derivation (reading) into a buffer. Each function returns the index after the last byte that it wrote.
ghost use Rattle.std.specs.Prelude.{◌∷◌, ◌++◌, ◌+◌, ◌*◌, ◌≤◌, length, take};
ghost use Rattle.std.specs.Int.Signed.{mag};
ghost use Rattle.sizes.specs.Sizes.{max_nodes, most};
ghost use Rattle.text.specs.Number.{decimal};
ghost use Rattle.text.specs.Line.{space, point, parts, length_end, line};
ghost use Rattle.print_number.specs.Put.{Put, max_tenths};
ghost use Rattle.print_line.specs.Sizes.{node_size, end_size, line_size};

use super::NEWLINE;
use print_number::{put_byte, put_bytes, put_decimal, put_signed};

const SPACE: u8 = 32;

const POINT: u8 = 46;

const COLON: u8 = 58;

// Writes a node (part): a space, how many marks it covers, a point, its rule.
pub fn put_node(cover: u16, rule: u16, at: usize, out: &mut [u8]) -> usize
    requires { at + node_size ≤ length out.old }
    ensures put { Put ((space ∷ decimal cover) ++ (point ∷ decimal rule)) at result out.old out.new }
    ensures upper_bound { result ≤ at + node_size }
{
    let a = put_byte(SPACE, at, out);
    let b = put_decimal(cover as usize, a, out);
    let c = put_byte(POINT, b, out);
    put_decimal(rule as usize, c, out)
}

// Writes the first m nodes of a derivation, which has two numbers for each.
pub fn put_nodes(e: &[u16], m: usize, at: usize, out: &mut [u8]) -> usize
    requires { (2 * m ≤ length e.now) × (m ≤ max_nodes) × (at + node_size * m ≤ length out.old) }
    ensures put { Put (parts (take (2 * m) e.now)) at result out.old out.new }
    ensures upper_bound { result ≤ at + node_size * m }
{
    let mut end = at;
    for i in 0..m {
        end = put_node(e[2 * i], e[2 * i + 1], end, out);
    }
    end
}

// Writes the end of the line, after the nodes: an equals sign, the length in tenths, a newline.
fn put_end(tenths: i32, at: usize, out: &mut [u8]) -> usize
    requires { (mag tenths ≤ max_tenths) × (at + end_size ≤ length out.old) }
    ensures { Put (length_end tenths) at result out.old out.new }
{
    let a = put_bytes(b" = ", at, out);
    let b = put_signed(tenths, a, out);
    put_byte(NEWLINE, b, out)
}

// Writes the line of a derivation: its place in the list, a colon, its nodes, its length in tenths.
pub fn put_line(place: usize, e: &[u16], m: usize, tenths: i32, out: &mut [u8]) -> usize
    requires { (place ≤ most) × (2 * m ≤ length e.now) × (m ≤ max_nodes) × (mag tenths ≤ max_tenths)
        × (line_size ≤ length out.old) }
    ensures { Put (line place (take (2 * m) e.now) tenths) 0 result out.old out.new }
{
    let a = put_decimal(place, 0, out);
    let b = put_byte(COLON, a, out);
    let c = put_nodes(e, m, b, out);
    put_end(tenths, c, out)
}
