// Writes bytes and numbers into a lent buffer. Each function returns the index after the last byte that it wrote.
#![tactic(auto)]

ghost use Rattle.std.specs.Prelude.{[], ◌∷◌, ◌+◌, ◌<◌, ◌≤◌, length};
ghost use Rattle.std.specs.Int.Signed.{mag};
ghost use Rattle.text.specs.Number.{decimal, signed_decimal};
ghost use Rattle.print_number.specs.Put.{Put, length_size, max_tenths};

// The byte of the digit 0, and the byte of the minus sign.
const ZERO: u8 = 48;

const MINUS: u8 = 45;

// Writes a byte.
pub fn put_byte(b: u8, at: usize, out: &mut [u8]) -> usize
    requires { at < length out.old }
    ensures { Put (b ∷ []) at result out.old out.new }
{
    out[at] = b;
    at + 1
}

// Writes a row of bytes, one by one: `copy_from_slice` would call memmove here, which the archive for C is not to need.
pub fn put_bytes(s: &[u8], at: usize, out: &mut [u8]) -> usize
    requires { at + length s.now ≤ length out.old }
    ensures { Put s.now at result out.old out.new }
{
    for (i, byte) in s.iter().enumerate() {
        out[at + i] = *byte;
    }
    at + s.len()
}

// Writes a number in decimal: the digits before the last one, then the last one.
pub fn put_decimal(n: usize, at: usize, out: &mut [u8]) -> usize
    requires { at + length (decimal n) ≤ length out.old }
    ensures { Put (decimal n) at result out.old out.new }
{
    if n < 10 {
        put_byte(ZERO + n as u8, at, out)
    } else {
        let end = put_decimal(n / 10, at, out);
        put_byte(ZERO + (n % 10) as u8, end, out)
    }
}

// Writes a length in tenths, in decimal, with a minus sign if it is negative.
pub fn put_signed(z: i32, at: usize, out: &mut [u8]) -> usize
    requires { (mag z ≤ max_tenths) × (at + length_size ≤ length out.old) }
    ensures put { Put (signed_decimal z) at result out.old out.new }
    ensures upper_bound { result ≤ at + length_size }
{
    if z < 0 {
        let end = put_byte(MINUS, at, out);
        put_decimal((0 - z) as usize, end, out)
    } else {
        put_decimal(z as usize, at, out)
    }
}
