// The derivation (reading) after an offered one.
#![tactic(auto)]

ghost use Rattle.std.specs.Prelude.{true, ◌≡◌, ◌≤◌, length};
ghost use Rattle.cfg.specs.Listing.{L};
ghost use Rattle.theory_costs.specs.Span.{bytes_of};
ghost use Rattle.packed_fit.specs.Fit.{Told};
ghost use Rattle.first_made.specs.Written.{enumeration_of};
ghost use Rattle.answers.specs.Answers.{handing_of};
ghost use Rattle.packed.specs.Packed.{cfg_in};
ghost use Rattle.grammar.specs.View.{dated};
ghost use Rattle.results.specs.Check.{listed};
ghost use Rattle.results.specs.Enumerate.{next_of};
ghost use Rattle.sizes.specs.Sizes.{max_input, cells, output_size};
ghost use Rattle.table_layout.specs.Exact.{ChartTrue};
ghost use Rattle.next_made.specs.Made.{next_tree};
ghost use Rattle.next.specs.Answer.{next_filled};

use answers::Refusal;
use check_walk::derivation::is_derivation;
use first_made::build;
use grammar::Grammar;
use next_made::offered::next_made;
use packed::Packed;
use packed_fit::FitTable;
use table_all::made::Made;
use table_layout::layout::TABLES_SIZE;
use tree_node::Root;

// The derivation after the offered one, if the chart is filled and the fit table is made. The tables are this function's own.
fn next_tree(
    p: &Packed,
    start: usize,
    input: &[u8],
    offered: &[u16],
    fits: &FitTable,
    chart: &[u32],
    out: &mut [u16],
) -> Result<Option<usize>, Refusal>
    requires { (length input.now ≤ max_input) × (cells ≤ length chart.now) × (output_size ≤ length out.old)
        × Told p.now input.now fits.now × ChartTrue p.now (bytes_of input.now) chart.now (length input.now)
        × (listed offered.now (L (cfg_in start p.now) input.now) ≡ true) }
    ensures { enumeration_of (handing_of result) chart.now out.new
        ≡ next_tree (cfg_in start p.now) input.now offered.now chart.now out.old }
{
    let mut tables = [0u16; TABLES_SIZE];
    let rules = build(p, input, fits, chart, &mut tables);
    let tables = &tables;
    let made = Made {
        p,
        rules,
        fits,
        chart,
        tables,
    };
    let n = input.len();
    let root = Root { start, n };
    next_made(&made, root, offered, out)
}

// The derivation after the offered row, or refusal 12 if that is no derivation. The chart is filled.
fn next_filled(
    p: &Packed,
    start: usize,
    input: &[u8],
    offered: &[u16],
    fits: &FitTable,
    chart: &[u32],
    out: &mut [u16],
) -> Result<Option<usize>, Refusal>
    requires { (length input.now ≤ max_input) × (cells ≤ length chart.now) × (output_size ≤ length out.old)
        × Told p.now input.now fits.now × ChartTrue p.now (bytes_of input.now) chart.now (length input.now) }
    ensures { enumeration_of (handing_of result) chart.now out.new
        ≡ next_filled (cfg_in start p.now) input.now offered.now chart.now out.old }
{
    if is_derivation(p, start, input, offered) {
        next_tree(p, start, input, offered, fits, chart, out)
    } else {
        Err(Refusal::NotADerivation)
    }
}

// ---- the exported call

// The derivation after the offered one, written to the front of the output. Refusals 8 to 12.
pub fn next(
    g: Grammar,
    input: &[u8],
    year: u16,
    offered: &[u16],
    chart: &mut [u32],
    out: &mut [u16],
) -> Result<Option<usize>, Refusal>
    ensures { enumeration_of (handing_of result) chart.new out.new
        ≡ next_of (dated g year) input.now offered.now chart.old out.old }
{
    fill_input::judge_output(g, input.len(), chart.len(), out.len())?;
    let mut fits = [0u8; packed_fit::FIT_SIZE];
    let p = fill_input::fill_fits(g, input, year, &mut fits, chart);
    next_filled(&p, usize::from(g.start), input, offered, &fits, chart, out)
}
