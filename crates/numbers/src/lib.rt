// Small functions that several crates need: a number of one width as a number of another. None cuts a number to its low bits.
#![tactic(auto)]

ghost use Rattle.std.specs.Prelude.{◌≡◌};
ghost use Rattle.numbers.specs.Numbers.{byte_in, saturated, signed_in, unsigned_of};

// A number where a byte is due, or 255 if that is less.
pub fn byte(n: u16) -> u8
    ensures { result ≡ byte_in n }
{
    u8::try_from(n).unwrap_or(255)
}

// A count, or 65535 if that is less.
pub fn saturate(n: usize) -> u16
    ensures { result ≡ saturated n }
{
    u16::try_from(n).unwrap_or(65535)
}

// The signed number that 16 bits mean in two's complement.
pub fn signed(n: u16) -> i16
    ensures { result ≡ signed_in n }
{
    if n < 32768 {
        n as i16
    } else {
        -1 - ((65535 - n) as i16)
    }
}

// A signed number as 16 bits in two's complement.
pub fn unsigned(z: i16) -> u16
    ensures { result ≡ unsigned_of z }
{
    if z < 0 {
        65535 - ((-1 - z) as u16)
    } else {
        z as u16
    }
}
