// The recognizer (document 01: the plate in hand): opening, and taking a byte.
#![tactic(auto)]

pub mod state;

ghost use Rattle.std.specs.Prelude.{true, false, ◌≡◌, ◌<◌, ◌≤◌, length};
ghost use Rattle.sizes.specs.Sizes.{cells, max_input};
ghost use Rattle.sets.specs.Set.{has as in_set};
ghost use Rattle.chart.specs.Cell.{cell};
ghost use Rattle.grammar.specs.Valid.{valid_grammar};
ghost use Rattle.grammar.specs.View.{dated};
ghost use Rattle.answers.specs.Number.{number_of};
ghost use Rattle.answers.specs.Answers.{verdict_of};
ghost use Rattle.results.specs.Answer.{answered, refused as refused_with};
ghost use Rattle.results.specs.Recognize.{state_check, open_of, take_of};
ghost use Rattle.recognizer.specs.Recognizer.{state_in, recognition_of};

use answers::Refusal;
use fill_columns::{complete, open_chart, write_column};
use grammar::Grammar;
use state::{blank, invalid, with_byte};

// How many points a state keeps; their names are 0 to 7.
pub const POINTS: usize = 8;

// The state: 64 bytes, of which the first `count` have been taken, the year with which it was opened, and its points, each 0 if it is not
// set, else one more than the count at which it was set.
#[derive(Clone, Copy)]
pub struct Recognizer {
    pub bytes: [u8; sizes::MAX_INPUT],
    pub count: usize,
    pub year: u16,
    pub points: [u8; POINTS],
}

// What a call gives: whether the input so far is complete, or the refusal, and the state.
// The state stands beside the Result and not within it, since `open_of` and `take_of` say which state a refused call hands back, too.
#[derive(Clone, Copy)]
pub struct Advanced {
    pub accepted: Result<bool, Refusal>,
    pub recognizer: Recognizer,
}

// The answer whether the input is complete after n bytes.
pub fn says(start: u8, n: usize, chart: &[u32]) -> Result<bool, Refusal>
    requires { (n ≤ max_input) × (cells ≤ length chart.now) }
    ensures { verdict_of result ≡ answered (in_set start (cell chart.now 0 n)) }
{
    Ok(complete(usize::from(start), n, chart))
}

// A refused call gives back the state as it was.
pub fn refused(h: Recognizer, r: Refusal) -> Advanced
    ensures { (verdict_of result.accepted ≡ refused_with (number_of r)) × (result.recognizer ≡ h) }
{
    Advanced {
        accepted: Err(r),
        recognizer: h,
    }
}

// Opens, once the checks are passed.
fn opening(g: Grammar, year: u16, chart: &mut [u32]) -> Advanced
    requires { (valid_grammar g ≡ true) × (cells ≤ length chart.old) }
    ensures { recognition_of result chart.new ≡ open_of (dated g year) chart.old }
{
    let p = packed_make::pack(g, year);
    open_chart(&p, chart);
    let accepted = says(g.start, 0, chart);
    Advanced {
        accepted,
        recognizer: blank(year),
    }
}

// Opens with a year, which the state keeps. Refusals 8 and 10.
pub fn open(g: Grammar, year: u16, chart: &mut [u32]) -> Advanced
    ensures { recognition_of result chart.new ≡ open_of (dated g year) chart.old }
{
    if !grammar::valid(g) {
        return refused(blank(0), Refusal::InvalidGrammar);
    }
    if chart.len() < sizes::CELLS {
        return refused(blank(0), Refusal::ChartTooShort);
    }
    opening(g, year, chart)
}

// Takes a byte, once the checks are passed.
fn taking(h: Recognizer, g: Grammar, byte: u8, chart: &mut [u32]) -> Advanced
    requires { (valid_grammar g ≡ true) × ((state_check (state_in h)).fails ≡ false) × (h.count < max_input)
        × (cells ≤ length chart.old) }
    ensures { recognition_of result chart.new ≡ take_of g (state_in h) byte chart.old }
{
    let p = packed_make::pack(g, h.year);
    let next = with_byte(h, byte);
    let n = next.count;
    let bytes = next.bytes;
    write_column(&p, &bytes[..n], n, chart);
    Advanced {
        accepted: says(g.start, n, chart),
        recognizer: next,
    }
}

impl Recognizer {
    // Takes a byte, in the year of the state. Refusals 8, 14, 10 and 15.
    pub fn take(self, g: Grammar, byte: u8, chart: &mut [u32]) -> Advanced
        ensures { recognition_of result chart.new ≡ take_of g (state_in self) byte chart.old }
    {
        let n = self.count;
        let room = chart.len();
        if !grammar::valid(g) {
            return refused(self, Refusal::InvalidGrammar);
        }
        if invalid(self) {
            return refused(self, Refusal::InvalidRecognizer);
        }
        if room < sizes::CELLS {
            return refused(self, Refusal::ChartTooShort);
        }
        if n == sizes::MAX_INPUT {
            return refused(self, Refusal::RecognizerFull);
        }
        taking(self, g, byte, chart)
    }
}
