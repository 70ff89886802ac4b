// What every call on an input does before its own work: checks 8 to 11, and then the packing of the grammar and the filling of the chart.
#![tactic(auto)]

ghost use Rattle.std.specs.Prelude.{◌≡◌, ℕ, length};
ghost use Rattle.cfg.specs.Grammar.{rule as rule_of_number};
ghost use Rattle.chart.specs.Column.{filled};
ghost use Rattle.packed_fit.specs.Fit.{Told};
ghost use Rattle.grammar.specs.View.{dated, grammar_of};
ghost use Rattle.packed.specs.Packed.{cfg_in};
ghost use Rattle.fill_input.specs.Judging.{Judging, JudgingOutput, Fillable};

use answers::Refusal;
use grammar::Grammar;
use packed::Packed;
use packed_fit::FitTable;

// Checks 8, 9 and 10, for an input of n bytes and a chart of m cells.
pub fn judge(g: Grammar, n: usize, m: usize) -> Result<(), Refusal>
    ensures { Judging g n m result }
{
    if !grammar::valid(g) {
        return Err(Refusal::InvalidGrammar);
    }
    if n > sizes::MAX_INPUT {
        return Err(Refusal::InputLength);
    }
    if m < sizes::CELLS {
        return Err(Refusal::ChartTooShort);
    }
    Ok(())
}

// Checks 8 to 11, for an input of n bytes, a chart of m cells and an output of k numbers.
pub fn judge_output(g: Grammar, n: usize, m: usize, k: usize) -> Result<(), Refusal>
    ensures { JudgingOutput g n m k result }
{
    judge(g, n, m)?;
    if k < sizes::OUTPUT {
        return Err(Refusal::OutputTooShort);
    }
    Ok(())
}

// The packed grammar. The chart is filled for the input, and the fit table is made, which the caller needs after this.
pub fn fill_fits(
    g: Grammar,
    input: &[u8],
    year: u16,
    fits: &mut FitTable,
    chart: &mut [u32],
) -> Packed
    requires { Fillable g (length input.now) (length chart.old) }
    ensures { ((chart.new ≡ filled (grammar_of (dated g year)) input.now chart.old)
        × ((r : ℕ) → rule_of_number (cfg_in g.start result) r ≡ rule_of_number (grammar_of (dated g year)) r))
        × Told result input.now fits.new }
{
    let p = packed_make::pack(g, year);
    *fits = packed_fit::table(&p, input);
    fill_columns::fill(&p, fits, input.len(), chart);
    p
}

// The same if the fit table is not needed after this. It does not call the function above: so short a function would be inlined into the
// checker's calls, and the fit table would take 8 KB of stack during the checker's recursion.
pub fn fill(g: Grammar, input: &[u8], year: u16, chart: &mut [u32]) -> Packed
    requires { Fillable g (length input.now) (length chart.old) }
    ensures { (chart.new ≡ filled (grammar_of (dated g year)) input.now chart.old)
        × ((r : ℕ) → rule_of_number (cfg_in g.start result) r ≡ rule_of_number (grammar_of (dated g year)) r) }
{
    let p = packed_make::pack(g, year);
    let fits = packed_fit::table(&p, input);
    fill_columns::fill(&p, &fits, input.len(), chart);
    p
}
