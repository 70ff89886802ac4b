// A state of the recognizer (document 01: the plate in hand) as a row of 16-bit numbers, the form in which it crosses to C and Rust: the 64
// bytes, the count, the year, then the eight points. Check 14 refuses the state read from a row exactly if the row's own numbers are
// invalid. It refuses the row of a state exactly if it refuses the state.
#![tactic(auto)]

ghost use Rattle.std.specs.Prelude.{◌++◌, ◌≡◌, length, take};
ghost use Rattle.std.specs.List.{list_all};
ghost use Rattle.recognizer.specs.Recognizer.{state_in};
ghost use Rattle.c_hand.specs.Hand.{hand_size, points_at, is_byte, bytes_in, used_bytes, points_in, hand_points, state_of_row, row_of};

use recognizer::{POINTS, Recognizer};
use sizes::MAX_INPUT;

// How many numbers the row has: the bytes, the count, the year, then the points.
pub const HAND: usize = MAX_INPUT + 2 + POINTS;

// Where the year is.
const YEAR: usize = MAX_INPUT + 1;

// Where the points are.
const POINTS_AT: usize = MAX_INPUT + 2;

// A point that is past every count, so that check 14 refuses it.
const PAST: u8 = 255;

// Reads the 64 bytes. The row is passed by value, so that its length is known.
fn read_bytes(h: [u16; HAND]) -> [u8; MAX_INPUT]
    ensures { result ≡ bytes_in h }
{
    let mut bytes = [0u8; MAX_INPUT];
    for (i, byte) in bytes.iter_mut().enumerate() {
        *byte = numbers::byte(h[i]);
    }
    bytes
}

// Reads the points.
fn read_points(h: [u16; HAND]) -> [u8; POINTS]
    ensures { result ≡ points_in h }
{
    let mut points = [0u8; POINTS];
    for (i, point) in points.iter_mut().enumerate() {
        *point = numbers::byte(h[POINTS_AT + i]);
    }
    points
}

// Whether each number is a byte.
fn all_bytes(numbers: &[u16]) -> bool
    ensures { result ≡ list_all is_byte numbers.now }
{
    numbers.iter().all(|x| *x <= 255)
}

// Whether each used number is a byte.
fn used_bytes(h: &[u16; HAND]) -> bool
    ensures { result ≡ used_bytes h.now }
{
    let n = usize::from(h[MAX_INPUT]);
    all_bytes(&h[..n.min(MAX_INPUT)])
}

// Reads the points; the first is past every count if a used number is not a byte.
fn hand_points(h: &[u16; HAND]) -> [u8; POINTS]
    ensures { result ≡ hand_points h.now }
{
    let mut points = read_points(*h);
    if used_bytes(h) {
        return points;
    }
    points[0] = PAST;
    points
}

// The state of a row.
pub fn read(h: &[u16; HAND]) -> Recognizer
    ensures { state_in result ≡ state_of_row h.now }
{
    let bytes = read_bytes(*h);
    let points = hand_points(h);
    Recognizer {
        bytes,
        count: usize::from(h[MAX_INPUT]),
        year: h[YEAR],
        points,
    }
}

// Writes the points behind the year.
fn write_points(r: Recognizer, h: &mut [u16; HAND])
    requires { length h.old ≡ hand_size }
    ensures { h.new ≡ take points_at h.old ++ r.points }
{
    for (i, point) in r.points.iter().enumerate() {
        h[POINTS_AT + i] = u16::from(*point);
    }
}

// Writes the row of the state. The row is cleared first, so that its length is known whatever it held.
pub fn write(r: Recognizer, h: &mut [u16; HAND])
    ensures { h.new ≡ row_of (state_in r) }
{
    *h = [0u16; HAND];
    for (k, byte) in r.bytes.iter().enumerate() {
        h[k] = u16::from(*byte);
    }
    h[MAX_INPUT] = numbers::saturate(r.count);
    h[YEAR] = r.year;
    write_points(r, h);
}
