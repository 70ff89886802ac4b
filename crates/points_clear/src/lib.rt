// Clearing the columns of a chart after one, as a return to a point does.
#![tactic(auto)]

ghost use Rattle.std.specs.Prelude.{◌≡◌, ◌≤◌, length};
ghost use Rattle.sizes.specs.Sizes.{cells, max_input};
ghost use Rattle.theory_clearing.specs.Clearing.{cleared_column, cleared};

// Writes zero into the cells of column n, (0, n) to (n, n), and into no other.
fn clear_column(n: usize, chart: &mut [u32])
    requires { (n ≤ max_input) × (cells ≤ length chart.old) }
    ensures { chart.new ≡ cleared_column n chart.old }
{
    for i in 0..=n {
        chart[sizes::SIDE * i + n] = 0;
    }
}

// Writes zero into the cells of all columns after column p, and into no other.
pub fn clear_after(p: usize, chart: &mut [u32])
    requires { (p ≤ max_input) × (cells ≤ length chart.old) }
    ensures { chart.new ≡ cleared p chart.old }
{
    for n in p + 1..=sizes::MAX_INPUT {
        clear_column(n, chart);
    }
}
