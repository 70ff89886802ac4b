// The points that remain after a return.
ghost use Rattle.std.specs.Prelude.{◌≡◌, ◌≤◌};
ghost use Rattle.sizes.specs.Sizes.{max_input};
ghost use Rattle.results.specs.Points.{kept_point, points_up_to};

use super::POINTS;

// A point after a return to the count n: 0 if it is past it.
fn kept_point(p: u8, n: usize) -> u8
    requires { n ≤ max_input }
    ensures { result ≡ kept_point n p }
{
    if usize::from(p) <= n + 1 { p } else { 0 }
}

// The points that remain after a return to the count n: those past it are gone.
pub fn points_up_to(points: [u8; POINTS], n: usize) -> [u8; POINTS]
    requires { n ≤ max_input }
    ensures { result ≡ points_up_to n points }
{
    points.map(|p| kept_point(p, n))
}
