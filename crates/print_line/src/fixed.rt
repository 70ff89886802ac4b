// Writes the lines of fixed words to the front of a buffer. Each function returns the index after the line.
ghost use Rattle.std.specs.Prelude.{◌<◌, ◌≤◌, length};
ghost use Rattle.sizes.specs.Sizes.{most};
ghost use Rattle.results.specs.Answer.{counted, more};
ghost use Rattle.text.specs.Line.{refused_line, no_reading_line, readings_line};
ghost use Rattle.print_number.specs.Put.{Put};
ghost use Rattle.print_line.specs.Sizes.{line_size};

use super::NEWLINE;
use print_number::{put_byte, put_bytes, put_decimal};

// Writes the line of a refusal with its number, which is a byte.
pub fn put_refused(n: usize, out: &mut [u8]) -> usize
    requires { (n < 256) × (line_size ≤ length out.old) }
    ensures { Put (refused_line n) 0 result out.old out.new }
{
    let a = put_bytes(b"REFUSED ", 0, out);
    let b = put_decimal(n, a, out);
    put_byte(NEWLINE, b, out)
}

// Writes the line of an input that has no derivation (reading).
pub fn put_no_reading(out: &mut [u8]) -> usize
    requires { line_size ≤ length out.old }
    ensures { Put no_reading_line 0 result out.old out.new }
{
    put_bytes(b"NO READING\n", 0, out)
}

// Writes the line that says how many derivations there are.
pub fn put_readings(n: usize, out: &mut [u8]) -> usize
    requires { (n ≤ most) × (line_size ≤ length out.old) }
    ensures { Put (readings_line (counted n)) 0 result out.old out.new }
{
    let a = put_bytes(b"READINGS ", 0, out);
    let b = put_decimal(n, a, out);
    put_byte(NEWLINE, b, out)
}

// Writes the line that says that there are more derivations than were listed.
pub fn put_more(out: &mut [u8]) -> usize
    requires { line_size ≤ length out.old }
    ensures { Put (readings_line more) 0 result out.old out.new }
{
    put_bytes(b"READINGS more\n", 0, out)
}
