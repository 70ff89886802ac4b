// The arrays of a state of the recognizer (document 01: the plate in hand): the front of its bytes, and whether a point is past a count.
#![tactic(auto)]

pub mod kept;

ghost use Rattle.std.specs.Prelude.{not, ◌++◌, ◌≡◌, ◌-◌, ◌≤◌, take as take_first, replicate};
ghost use Rattle.sizes.specs.Sizes.{max_input};
ghost use Rattle.results.specs.Recognize.{points_within};

// How many points a state keeps; their names are 0 to 7.
pub const POINTS: usize = 8;

// The first n bytes, and zeros after them.
pub fn front(bytes: [u8; sizes::MAX_INPUT], n: usize) -> [u8; sizes::MAX_INPUT]
    requires { n ≤ max_input }
    ensures { result ≡ take_first n bytes ++ replicate (max_input - n) 0 }
{
    let mut copy = [0u8; sizes::MAX_INPUT];
    copy[..n].copy_from_slice(&bytes[..n]);
    copy
}

// Whether a set point is past the count n.
pub fn past(points: [u8; POINTS], n: usize) -> bool
    requires { n ≤ max_input }
    ensures { result ≡ not (points_within n points) }
{
    let most = n + 1;
    points.iter().any(|p| usize::from(*p) > most)
}
