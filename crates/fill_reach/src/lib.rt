// The ends of nonterminals from each start, read from the chart as sets of positions, and whether a rule is passed over because of them.
#![tactic(auto)]

ghost use Rattle.std.specs.Prelude.{◌<◌, ◌≤◌, length};
ghost use Rattle.sizes.specs.Sizes.{cells, side};
ghost use Rattle.fill_reach.specs.Reach.{ReachFrom, Reaches, CanBegin};

// A set of ends for each start.
pub type Reach = [u64; sizes::MAX_INPUT];

// A set of starts for each rule: those from which the places after its first can go on.
pub type Live = [u64; sizes::MAX_RULES];

// The ends before n of spans from i: those whose cells have a nonterminal.
fn reach_from(chart: &[u32], i: usize, n: usize) -> u64
    requires { (i < n) × (n < side) × (cells ≤ length chart.now) }
    ensures { ReachFrom chart.now i n result }
{
    let mut ends: u64 = 0;
    for c in i + 1..n {
        if chart[sizes::SIDE * i + c] != 0 {
            ends = sets::wide::with(ends, c);
        }
    }
    ends
}

// The ends before n of spans from each start before n.
pub fn reaches(chart: &[u32], n: usize) -> Reach
    requires { (n < side) × (cells ≤ length chart.now) }
    ensures { Reaches chart.now n result }
{
    let mut reach = [0u64; sizes::MAX_INPUT];
    for (i, ends) in reach[..n].iter_mut().enumerate() {
        *ends = reach_from(chart, i, n);
    }
    reach
}

// Whether a rule can have any inner cut of the span from i to n. If not, the rule is passed over.
pub fn can_begin(i: usize, n: usize, reach: u64, live: u64) -> bool
    requires { (i < n) × (n < side) }
    ensures { CanBegin i n reach live result }
{
    if i + 1 < n {
        return sets::wide::meets(sets::wide::with(reach, i + 1), live);
    }
    true
}
