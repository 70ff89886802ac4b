// How many derivations (readings) an input has.
#![tactic(auto)]

ghost use Rattle.std.specs.Prelude.{◌≡◌, ◌≤◌, length};
ghost use Rattle.cfg.specs.Listing.{L};
ghost use Rattle.theory_costs.specs.Span.{bytes_of};
ghost use Rattle.packed_fit.specs.Fit.{Told};
ghost use Rattle.packed.specs.Packed.{cfg_in};
ghost use Rattle.grammar.specs.View.{dated};
ghost use Rattle.fill_input.specs.Given.{checking_of};
ghost use Rattle.results.specs.Enumerate.{count_of};
ghost use Rattle.sizes.specs.Sizes.{max_input, cells};
ghost use Rattle.table_layout.specs.Exact.{ChartTrue};
ghost use Rattle.answers.specs.Answers.{counted_of};
ghost use Rattle.count_made.specs.Answer.{count_tree, count_filled};
ghost use Rattle.count_made.specs.Made.{CountedMade};

use answers::{Figure, Refusal};
use count_made::count_on;
use first_made::{build, exists, write_first};
use grammar::Grammar;
use packed::Packed;
use packed_fit::FitTable;
use table_all::made::Made;
use table_layout::layout::TABLES_SIZE;
use tree_node::Root;

// Counts the derivations, once the tables are made, or refuses with 13. The buffer is this function's own.
fn count_made(made: &Made, root: Root) -> Result<Figure, Refusal>
    ensures { CountedMade made.now.p.now made.now.rules made.now.fits.now made.now.chart.now made.now.tables.now
        root.start root.n (counted_of result) }
{
    if exists(made.tables, root.start, root.n) {
        let mut buf = [0u16; sizes::OUTPUT];
        write_first(made, root, &mut buf);
        count_on(made, root, &mut buf)
    } else {
        Err(Refusal::OnlyLargerTrees)
    }
}

// Counts the derivations, if the chart is filled, the fit table is made and trees exist. The tables are this function's own.
fn count_tree(
    p: &Packed,
    start: usize,
    input: &[u8],
    fits: &FitTable,
    chart: &[u32],
) -> Result<Figure, Refusal>
    requires { (length input.now ≤ max_input) × (cells ≤ length chart.now)
        × Told p.now input.now fits.now × ChartTrue p.now (bytes_of input.now) chart.now (length input.now) }
    ensures { counted_of result ≡ count_tree (L (cfg_in start p.now) input.now) }
{
    let mut tables = [0u16; TABLES_SIZE];
    let rules = build(p, input, fits, chart, &mut tables);
    let tables = &tables;
    let made = Made {
        p,
        rules,
        fits,
        chart,
        tables,
    };
    let n = input.len();
    let root = Root { start, n };
    count_made(&made, root)
}

// Counts the derivations, if the chart is filled and the fit table is made.
fn count_filled(
    p: &Packed,
    start: usize,
    input: &[u8],
    fits: &FitTable,
    chart: &[u32],
) -> Result<Figure, Refusal>
    requires { (length input.now ≤ max_input) × (cells ≤ length chart.now)
        × Told p.now input.now fits.now × ChartTrue p.now (bytes_of input.now) chart.now (length input.now) }
    ensures { counted_of result ≡ count_filled (cfg_in start p.now) input.now chart.now }
{
    if fill_columns::complete(start, input.len(), chart) {
        count_tree(p, start, input, fits, chart)
    } else {
        Ok(Figure::Exactly(0))
    }
}

// ---- the exported call

// How many derivations the input has, up to 4,096. Refusals 8, 9, 10 and 13.
pub fn count(g: Grammar, input: &[u8], year: u16, chart: &mut [u32]) -> Result<Figure, Refusal>
    ensures { checking_of (counted_of result) chart.new ≡ count_of (dated g year) input.now chart.old }
{
    fill_input::judge(g, input.len(), chart.len())?;
    let mut fits = [0u8; packed_fit::FIT_SIZE];
    let p = fill_input::fill_fits(g, input, year, &mut fits, chart);
    count_filled(&p, usize::from(g.start), input, &fits, chart)
}
