// The calls on offered derivations (document 01: readings): check, length and same build.
#![tactic(auto)]

ghost use Rattle.std.specs.Prelude.{◌≡◌, length};
ghost use Rattle.sizes.specs.Sizes.{max_rules};
ghost use Rattle.cfg.specs.Listing.{L};
ghost use Rattle.packed.specs.Packed.{cfg_in};
ghost use Rattle.grammar.specs.View.{dated};
ghost use Rattle.fill_input.specs.Given.{checking_of};
ghost use Rattle.answers.specs.Answers.{verdict_of, measured_of};
ghost use Rattle.results.specs.Check.{check_of};
ghost use Rattle.results.specs.Measure.{length_of, same_build_of};
ghost use Rattle.check_length.specs.Measure.{lengths_in};
ghost use Rattle.checker.specs.Calls.{check_answer, length_answer, build_answer};

use answers::Refusal;
use check_walk::derivation::is_derivation;
use grammar::Grammar;
use packed::Packed;

mod build;

// Whether the offered row of numbers is a derivation.
fn check_offered(p: &Packed, start: usize, input: &[u8], offered: &[u16]) -> Result<bool, Refusal>
    ensures { verdict_of result ≡ check_answer (L (cfg_in start p.now) input.now) offered.now }
{
    Ok(is_derivation(p, start, input, offered))
}

// The length of an offered derivation.
fn measure_offered(
    l: &[i16],
    p: &Packed,
    start: usize,
    input: &[u8],
    offered: &[u16],
) -> Result<i32, Refusal>
    requires { length l.now ≡ max_rules }
    ensures { measured_of result
        ≡ length_answer (lengths_in l.now) (L (cfg_in start p.now) input.now) offered.now }
{
    if is_derivation(p, start, input, offered) {
        Ok(check_length::tenths(l, offered))
    } else {
        Err(Refusal::NotADerivation)
    }
}

// Whether two offered derivations are the same build.
fn compare_offered(
    p: &Packed,
    start: usize,
    input: &[u8],
    a: &[u16],
    b: &[u16],
) -> Result<bool, Refusal>
    ensures { verdict_of result
        ≡ build_answer (L (cfg_in start p.now) input.now) a.now b.now }
{
    if !is_derivation(p, start, input, a) {
        return Err(Refusal::NotADerivation);
    }
    if !is_derivation(p, start, input, b) {
        return Err(Refusal::NotADerivation);
    }
    Ok(build::same_rules(a, b))
}

// ---- the exported calls

// Whether the offered row of numbers is a derivation of the input. Refusals 8, 9 and 10.
pub fn check(
    g: Grammar,
    input: &[u8],
    year: u16,
    offered: &[u16],
    chart: &mut [u32],
) -> Result<bool, Refusal>
    ensures { checking_of (verdict_of result) chart.new
        ≡ check_of (dated g year) input.now offered.now chart.old }
{
    fill_input::judge(g, input.len(), chart.len())?;
    let p = fill_input::fill(g, input, year, chart);
    check_offered(&p, usize::from(g.start), input, offered)
}

// The length of an offered derivation. Refusals 8, 9, 10 and 12.
pub fn length(
    g: Grammar,
    input: &[u8],
    year: u16,
    offered: &[u16],
    chart: &mut [u32],
) -> Result<i32, Refusal>
    ensures { checking_of (measured_of result) chart.new
        ≡ length_of (dated g year) input.now offered.now chart.old }
{
    fill_input::judge(g, input.len(), chart.len())?;
    let p = fill_input::fill(g, input, year, chart);
    let lengths = check_length::lengths_of(g);
    measure_offered(&lengths, &p, usize::from(g.start), input, offered)
}

// Whether two offered derivations are the same build. Refusals 8, 9, 10 and 12.
pub fn same_build(
    g: Grammar,
    input: &[u8],
    year: u16,
    a: &[u16],
    b: &[u16],
    chart: &mut [u32],
) -> Result<bool, Refusal>
    ensures { checking_of (verdict_of result) chart.new
        ≡ same_build_of (dated g year) input.now a.now b.now chart.old }
{
    fill_input::judge(g, input.len(), chart.len())?;
    let p = fill_input::fill(g, input, year, chart);
    compare_offered(&p, usize::from(g.start), input, a, b)
}
