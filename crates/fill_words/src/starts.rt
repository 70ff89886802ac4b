// The starts of spans: the flags of one start are added.
ghost use Rattle.std.specs.Prelude.{cond, ◌≡◌, ◌<◌, ◌≤◌};
ghost use Rattle.sizes.specs.Sizes.{max_rules, max_input};
ghost use Rattle.sets.specs.Set.{insert};
ghost use Rattle.fill_words.specs.Ends.{StartAdded, FlagsPut};

use super::words::Starts;
use fill_reach::Live;
use packed::Packed;

// The set, with k in it if the test holds.
fn with_if(w: u64, k: usize, test: bool) -> u64
    requires { k < max_input }
    ensures { result ≡ cond test (insert k w) w }
{
    if test { sets::wide::with(w, k) } else { w }
}

// Adds i to the starts of rule r at the places from 1 on that its flags have.
fn put_places(p: &Packed, r: usize, i: usize, flags: u32, starts: &mut Starts, live: &mut Live)
    requires { (r < max_rules) × (i < max_input) }
    ensures { StartAdded p.now r i flags
        starts.old live.old starts.new live.new }
{
    for q in 1..packed::count(p, r) {
        let test = packed::contains(flags, q);
        starts[sizes::MAX_PLACES * r + q] = with_if(starts[sizes::MAX_PLACES * r + q], i, test);
        live[r] = with_if(live[r], i, test);
    }
}

// The same, but a rule without flags is passed over.
fn put_rule(p: &Packed, r: usize, i: usize, flags: u32, starts: &mut Starts, live: &mut Live)
    requires { (r < max_rules) × (i < max_input) }
    ensures { StartAdded p.now r i flags
        starts.old live.old starts.new live.new }
{
    if flags != 0 {
        put_places(p, r, i, flags, starts, live);
    }
}

// The same for every rule below this number.
pub fn put_flags(
    p: &Packed,
    rules: usize,
    i: usize,
    flags: &[u32; sizes::MAX_RULES],
    starts: &mut Starts,
    live: &mut Live,
)
    requires { (rules ≤ max_rules) × (i < max_input) }
    ensures { FlagsPut p.now rules i flags.now
        starts.old live.old starts.new live.new }
{
    for (r, word) in flags[..rules].iter().enumerate() {
        put_rule(p, r, i, *word, starts, live);
    }
}
