// The least cost of the places q.. of a rule from a to j, inside a span from i to j. A child over the whole span costs what `full`
// says, any other child what the least table says. The costs of the places after q are in `rests` from `at` on.
ghost use Rattle.std.specs.Prelude.{◌≡◌, ◌+◌, ◌<◌, ◌≤◌, length};
ghost use Rattle.sizes.specs.Sizes.{max_rules, max_places, side};
ghost use Rattle.theory_costs.specs.Cut.{within as cost_within};
ghost use Rattle.packed.specs.Packed.{place_count};
ghost use Rattle.table_layout.specs.Layout.{cost_in, full_in};
ghost use Rattle.table_cut.specs.Within.{Proper, NonterminalAt, SuffixAt};

use super::suffix::{at_terminal, over_ends};
use packed::Packed;
use table_layout::layout::{Full, Tables, cost, full_of};

// The part from a to j of a span from i to j. Of the ends after a, those from `from` on are read.
#[derive(Clone, Copy)]
pub struct Part {
    pub i: usize,
    pub a: usize,
    pub from: usize,
    pub j: usize,
}

// The cost of the nonterminal k from a to j.
fn last_cost(tables: &Tables, full: &Full, k: usize, part: Part) -> u16
    requires { Proper part }
    ensures { result ≡ cost_within part.i part.j (full_in full.now) (cost_in tables.now) k part.a part.j }
{
    if part.a == part.i {
        full_of(full, k)
    } else {
        cost(tables, k, part.a, part.j)
    }
}

// The cost at the nonterminal k and the places after it.
fn nonterminal_at(
    tables: &Tables,
    full: &Full,
    k: usize,
    part: Part,
    rests: &[u16],
    at: usize,
) -> u16
    requires { Proper part × (at + side ≤ length rests.now) }
    ensures { NonterminalAt tables.now full.now k part.i part.a part.from part.j
        rests.now at result }
{
    let last = last_cost(tables, full, k, part);
    over_ends(tables, k, part.a, part.from, part.j, last, rests, at)
}

// The cost at place q of rule r and the places after it; `fits` says whether a terminal at q fits the byte at a.
pub fn suffix_at(
    p: &Packed,
    r: usize,
    q: usize,
    fits: bool,
    tables: &Tables,
    full: &Full,
    part: Part,
    rests: &[u16],
    at: usize,
) -> u16
    requires { (r < max_rules) × (q < max_places) × (q < place_count p.now r) × Proper part
        × (at + side ≤ length rests.now) }
    ensures { SuffixAt p.now r q fits tables.now full.now part.i part.a part.from part.j
        rests.now at result }
{
    if packed::is_nonterminal(p, r, q) {
        return nonterminal_at(tables, full, packed::value(p, r, q), part, rests, at);
    }
    at_terminal(fits, part.a, part.j, rests, at)
}
