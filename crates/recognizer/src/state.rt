// The state of the recognizer: the state without bytes, the front of its bytes, the state with one more byte, and check 14.
ghost use Rattle.std.specs.Prelude.{[], ◌∷◌, ◌++◌, ◌≡◌, ◌+◌, ◌-◌, ◌≤◌, ◌<◌, take as take_first, replicate};
ghost use Rattle.sizes.specs.Sizes.{max_input};
ghost use Rattle.results.specs.Recognize.{hand_of, state_of, state_check};
ghost use Rattle.recognizer.specs.Recognizer.{state_in};

use super::{POINTS, Recognizer};

// The state without bytes: zeros, and the year.
pub fn blank(year: u16) -> Recognizer
    ensures { state_in result ≡ state_of [] year }
{
    Recognizer {
        bytes: [0u8; sizes::MAX_INPUT],
        count: 0,
        year,
        points: [0u8; POINTS],
    }
}

// The first n bytes of the state, and zeros after them.
pub fn front(h: Recognizer, n: usize) -> [u8; sizes::MAX_INPUT]
    requires { n ≤ max_input }
    ensures { result ≡ take_first n h.bytes ++ replicate (max_input - n) 0 }
{
    let mut bytes = [0u8; sizes::MAX_INPUT];
    bytes[..n].copy_from_slice(&h.bytes[..n]);
    bytes
}

// The state with one more byte, and zeros after it. It keeps its year and its points.
pub fn with_byte(h: Recognizer, byte: u8) -> Recognizer
    requires { h.count < max_input }
    ensures { (state_in result ≡ hand_of (take_first h.count h.bytes ++ (byte ∷ [])) h.points h.year)
        × (result.count ≡ h.count + 1) }
{
    let n = h.count;
    let mut bytes = front(h, n);
    bytes[n] = byte;
    let points = h.points;
    Recognizer {
        bytes,
        count: n + 1,
        year: h.year,
        points,
    }
}

// Check 14: whether the count is over 64, or a set point is past the count.
pub fn invalid(h: Recognizer) -> bool
    ensures { result ≡ (state_check (state_in h)).fails }
{
    let n = h.count;
    if n > sizes::MAX_INPUT {
        return true;
    }
    let most = n + 1;
    h.points.iter().any(|p| usize::from(*p) > most)
}
