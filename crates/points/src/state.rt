// The state with a point set, and the state after a return. Both have zeros after their bytes.
ghost use Rattle.std.specs.Prelude.{◌≡◌, ◌+◌, ◌≤◌, ◌<◌, take as take_first, set};
ghost use Rattle.sizes.specs.Sizes.{max_input, max_points};
ghost use Rattle.results.specs.Recognize.{hand_of};
ghost use Rattle.results.specs.Points.{kept_point, points_up_to};
ghost use Rattle.recognizer.specs.Recognizer.{state_in};

use recognizer::state::front;
use recognizer::{POINTS, Recognizer};

// The state with the point of this name at its count.
pub fn with_point(h: Recognizer, name: usize) -> Recognizer
    requires { (h.count ≤ max_input) × (name < max_points) }
    ensures { state_in result ≡ hand_of (take_first h.count h.bytes) (set h.points name (h.count + 1)) h.year }
{
    let n = h.count;
    let bytes = front(h, n);
    let mut points = h.points;
    points[name] = (n + 1) as u8;
    Recognizer {
        bytes,
        count: n,
        year: h.year,
        points,
    }
}

// A point after a return to the count n: 0 if it is past it.
fn kept_point(p: u8, n: usize) -> u8
    requires { n ≤ max_input }
    ensures { result ≡ kept_point n p }
{
    if usize::from(p) <= n + 1 { p } else { 0 }
}

// The points that remain after a return to the count n: those past it are gone.
fn points_up_to(h: Recognizer, n: usize) -> [u8; POINTS]
    requires { n ≤ max_input }
    ensures { result ≡ points_up_to n h.points }
{
    h.points.map(|p| kept_point(p, n))
}

// The state with the first n bytes and the points up to there.
pub fn back(h: Recognizer, n: usize) -> Recognizer
    requires { n ≤ max_input }
    ensures { state_in result ≡ hand_of (take_first n h.bytes) (points_up_to n h.points) h.year }
{
    Recognizer {
        bytes: front(h, n),
        count: n,
        year: h.year,
        points: points_up_to(h, n),
    }
}
