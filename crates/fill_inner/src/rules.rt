// Where inner cuts begin, for every rule. Rules that can have none are passed over.
ghost use Rattle.std.specs.Prelude.{◌<◌, ◌≤◌};
ghost use Rattle.sizes.specs.Sizes.{max_rules, max_input};
ghost use Rattle.fill_inner.specs.Begins.{BeginsNear, AllBegin};

use super::places::{Window, begins};
use fill_reach::{Live, can_begin};
use fill_words::words::{Ends, Starts};
use packed::Packed;
use packed_fit::FitTable;

// The places of rule r at which an inner cut begins. If the sets of all ends and all starts show that it has none, it is passed over.
fn begins_near(
    p: &Packed,
    r: usize,
    window: Window,
    ends: &Ends,
    starts: &Starts,
    reach: u64,
    live: u64,
) -> u32
    requires { (r < max_rules) × (window.i < window.n) × (window.n ≤ max_input) }
    ensures { BeginsNear p.now r window.i window.n window.fits
        ends.now starts.now reach live window.last result }
{
    if can_begin(window.i, window.n, reach, live) {
        begins(p, r, window, ends, starts)
    } else {
        0
    }
}

// The places at which inner cuts of the span from i to n begin, for every rule below this number.
pub fn begin_all(
    p: &Packed,
    rules: usize,
    fits: &FitTable,
    i: usize,
    n: usize,
    ends: &Ends,
    starts: &Starts,
    reach: u64,
    live: &Live,
    lasts: &[u32; sizes::MAX_RULES],
    insides: &mut [u32; sizes::MAX_RULES],
)
    requires { (rules ≤ max_rules) × (i < n) × (n ≤ max_input) }
    ensures { AllBegin p.now rules i n fits.now ends.now starts.now reach
        live.now lasts.now insides.new }
{
    for r in 0..rules {
        let window = Window {
            i,
            n,
            fits: u32::from(fits[sizes::MAX_RULES * i + r]),
            last: lasts[r],
        };
        insides[r] = begins_near(p, r, window, ends, starts, reach, live[r]);
    }
}
