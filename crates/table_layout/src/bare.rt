// The costs of rules without a child over the whole span: where each is stored in the tables, and how it is read.
ghost use Rattle.std.specs.Prelude.{◌≡◌, ◌*◌, ◌<◌};
ghost use Rattle.sizes.specs.Sizes.{max_rules, side};
ghost use Rattle.table_layout.specs.Layout.{half, span_at, bare_at, bare_in, tables_size};

use super::layout::{BARES, Tables};

// Two starts share a row of spans: a start below HALF uses its front, a start from HALF on its end.
const HALF: usize = sizes::MAX_INPUT / 2;

// The index of the span from i to j among the spans that are not empty.
fn span_at(i: usize, j: usize) -> usize
    requires { (i < j) × (j < side) }
    ensures { (result ≡ span_at i j) × (result < half * side) }
{
    if i < HALF {
        sizes::SIDE * i + (j - i - 1)
    } else {
        sizes::SIDE * (sizes::MAX_INPUT - 1 - i) + j
    }
}

// Where the cost of rule r over the span from i to j is stored.
pub fn bare_at(i: usize, j: usize, r: usize) -> usize
    requires { (i < j) × (j < side) × (r < max_rules) }
    ensures { (result ≡ bare_at i j r) × (result < tables_size) }
{
    BARES + sizes::MAX_RULES * span_at(i, j) + r
}

// The cost of rule r over the span from i to j, without a child over the whole span.
pub fn bare(tables: &Tables, i: usize, j: usize, r: usize) -> u16
    requires { (i < j) × (j < side) × (r < max_rules) }
    ensures { result ≡ bare_in tables.now i j r }
{
    tables[bare_at(i, j, r)]
}
