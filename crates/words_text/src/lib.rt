// The pieces of a text: names of rules, numbers of rules, leaves. Each function that writes returns the index after the last byte.
#![tactic(auto)]

ghost use Rattle.std.specs.Prelude.{◌≡◌, ◌==◌, ◌+◌, ◌<◌, ◌≤◌, length, take, drop, position};
ghost use Rattle.std.specs.List.{list_all};
ghost use Rattle.sizes.specs.Sizes.{max_rules};
ghost use Rattle.theory_words.specs.Name.{name_size, blank, unnamed, unfilled, hex_digit, number_text};
ghost use Rattle.theory_words.specs.Words.{leaf_text};
ghost use Rattle.print_number.specs.Put.{Put};
ghost use Rattle.words_text.specs.Names.{name_in, text_in, names_size};

use print_number::{put_byte, put_bytes};

// The bytes of a name with its filling, and of the names of all rules, one after the other.
pub const NAME: usize = 8;

pub const NAMES_SIZE: usize = sizes::MAX_RULES * NAME;

pub type Names = [u8; NAMES_SIZE];

// The byte that fills a name up, the sign of a leaf, and the sign of a rule without a name.
const BLANK: u8 = 0x20;

const LEAF: u8 = 0x3D;

const NUMBER: u8 = 0x23;

// The byte of a digit up to 15, in capitals.
fn digit(d: usize) -> u8
    requires { d < 16 }
    ensures { result ≡ hex_digit d }
{
    if d < 10 {
        0x30 + d as u8
    } else {
        0x37 + d as u8
    }
}

// Writes a leaf: `=` and its byte in two hexadecimal digits.
pub fn put_leaf(b: u8, at: usize, out: &mut [u8]) -> usize
    requires { at + 3 ≤ length out.old }
    ensures { Put (leaf_text b) at result out.old out.new }
{
    let n = usize::from(b);
    let high = put_byte(LEAF, at, out);
    let low = put_byte(digit(n / 16), high, out);
    put_byte(digit(n % 16), low, out)
}

// Writes `#` and the number of rule r in three digits.
fn put_number(r: usize, at: usize, out: &mut [u8]) -> usize
    requires { (r < max_rules) × (at + 4 ≤ length out.old) }
    ensures { Put (number_text r) at result out.old out.new }
{
    let hundreds = put_byte(NUMBER, at, out);
    let tens = put_byte(digit(r / 100), hundreds, out);
    let ones = put_byte(digit(r / 10 % 10), tens, out);
    put_byte(digit(r % 10), ones, out)
}

// Whether all bytes are zeros.
fn all_zeros(bytes: &[u8]) -> bool
    ensures { result ≡ list_all (λ b. b == 0) bytes.now }
{
    bytes.iter().all(|b| *b == 0)
}

// The index of the first blank.
fn first_blank(bytes: &[u8]) -> Option<usize>
    ensures { result ≡ position (λ b. b == blank) bytes.now }
{
    bytes.iter().position(|b| *b == BLANK)
}

// Whether rule r has no name: its eight bytes are zeros.
fn is_unnamed(names: &Names, r: usize) -> bool
    requires { (r < max_rules) × (length names.now ≡ names_size) }
    ensures { result ≡ unnamed (name_in names.now r) }
{
    let at = NAME * r;
    all_zeros(&names[at..at + NAME])
}

// How many bytes the name at an offset has without its filling.
pub fn length_at(bytes: &[u8], at: usize) -> usize
    requires { at + name_size ≤ length bytes.now }
    ensures { (result ≡ length (unfilled (take name_size (drop at bytes.now)))) × (result ≤ name_size) }
{
    first_blank(&bytes[at..at + NAME]).unwrap_or(NAME)
}

// How many bytes the name of rule r has without its filling.
fn name_length(names: &Names, r: usize) -> usize
    requires { (r < max_rules) × (length names.now ≡ names_size) }
    ensures { (result ≡ length (unfilled (name_in names.now r))) × (result ≤ name_size) }
{
    let row = &names[..];
    length_at(row, NAME * r)
}

// How many bytes the text of rule r has.
pub fn rule_length(names: &Names, r: usize) -> usize
    requires { (r < max_rules) × (length names.now ≡ names_size) }
    ensures { (result ≡ length (text_in names.now r)) × (result ≤ name_size) }
{
    if is_unnamed(names, r) {
        4
    } else {
        name_length(names, r)
    }
}

// Writes the text of rule r: its name without its filling, or its number if it has none.
pub fn put_rule(names: &Names, r: usize, at: usize, out: &mut [u8]) -> usize
    requires { (r < max_rules) × (length names.now ≡ names_size) × (at + length (text_in names.now r) ≤ length out.old) }
    ensures { Put (text_in names.now r) at result out.old out.new }
{
    if is_unnamed(names, r) {
        put_number(r, at, out)
    } else {
        let from = NAME * r;
        let n = name_length(names, r);
        let row = &names[..];
        put_bytes(&row[from..from + n], at, out)
    }
}
