// The first derivation (reading) of an input.
#![tactic(auto)]

ghost use Rattle.std.specs.Prelude.{◌≡◌, ◌≤◌, length};
ghost use Rattle.sizes.specs.Sizes.{cells, output_size, max_input};
ghost use Rattle.theory_costs.specs.Span.{bytes_of};
ghost use Rattle.packed_fit.specs.Fit.{Told};
ghost use Rattle.packed.specs.Packed.{cfg_in};
ghost use Rattle.grammar.specs.View.{dated};
ghost use Rattle.results.specs.Enumerate.{first_of};
ghost use Rattle.table_layout.specs.Exact.{ChartTrue};
ghost use Rattle.first_made.specs.Written.{enumeration_of, first_tree};
ghost use Rattle.answers.specs.Answers.{handing_of};
ghost use Rattle.first.specs.Answer.{first_filled};

use answers::Refusal;
use grammar::Grammar;
use made::first_made;
use packed::Packed;
use packed_fit::FitTable;
use table_all::made::Made;
use table_layout::layout::TABLES_SIZE;
use tree_node::Root;

pub mod made;

// The first derivation, if the chart is filled, the fit table is made and trees exist. The tables are this function's own.
fn first_tree(
    p: &Packed,
    start: usize,
    input: &[u8],
    fits: &FitTable,
    chart: &[u32],
    out: &mut [u16],
) -> Result<Option<usize>, Refusal>
    requires { (length input.now ≤ max_input) × (cells ≤ length chart.now) × (output_size ≤ length out.old)
        × Told p.now input.now fits.now × ChartTrue p.now (bytes_of input.now) chart.now (length input.now) }
    ensures { enumeration_of (handing_of result) chart.now out.new
        ≡ first_tree (cfg_in start p.now) input.now chart.now out.old }
{
    let mut tables = [0u16; TABLES_SIZE];
    let rules = first_made::build(p, input, fits, chart, &mut tables);
    let tables = &tables;
    let made = Made {
        p,
        rules,
        fits,
        chart,
        tables,
    };
    let n = input.len();
    let root = Root { start, n };
    first_made(&made, root, out)
}

// The first derivation, if the chart is filled and the fit table is made.
fn first_filled(
    p: &Packed,
    start: usize,
    input: &[u8],
    fits: &FitTable,
    chart: &[u32],
    out: &mut [u16],
) -> Result<Option<usize>, Refusal>
    requires { (length input.now ≤ max_input) × (cells ≤ length chart.now) × (output_size ≤ length out.old)
        × Told p.now input.now fits.now × ChartTrue p.now (bytes_of input.now) chart.now (length input.now) }
    ensures { enumeration_of (handing_of result) chart.now out.new
        ≡ first_filled (cfg_in start p.now) input.now chart.now out.old }
{
    if fill_columns::complete(start, input.len(), chart) {
        first_tree(p, start, input, fits, chart, out)
    } else {
        Ok(None)
    }
}

// ---- the exported call

// The first derivation of the input, written to the front of the output. Refusals 8 to 11 and 13.
pub fn first(
    g: Grammar,
    input: &[u8],
    year: u16,
    chart: &mut [u32],
    out: &mut [u16],
) -> Result<Option<usize>, Refusal>
    ensures { enumeration_of (handing_of result) chart.new out.new
        ≡ first_of (dated g year) input.now chart.old out.old }
{
    fill_input::judge_output(g, input.len(), chart.len(), out.len())?;
    let mut fits = [0u8; packed_fit::FIT_SIZE];
    let p = fill_input::fill_fits(g, input, year, &mut fits, chart);
    first_filled(&p, usize::from(g.start), input, &fits, chart, out)
}
