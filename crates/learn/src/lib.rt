// Learning a rule (document 02, U8): from the bytes of one rule to the longer grammar, and the chart filled anew for the bytes of the
// state.
#![tactic(auto)]

mod reading;
mod turn;

ghost use Rattle.std.specs.Prelude.{true, false, ◌≡◌, ◌≤◌, length};
ghost use Rattle.sizes.specs.Sizes.{cells, max_input};
ghost use Rattle.grammar.specs.Valid.{valid_grammar};
ghost use Rattle.answers.specs.Number.{number_of};
ghost use Rattle.answers.specs.Answers.{verdict_of};
ghost use Rattle.results.specs.Answer.{refused as refused_with};
ghost use Rattle.results.specs.Recognize.{state_check};
ghost use Rattle.results.specs.Learn.{learn_in, learn_of};
ghost use Rattle.recognizer.specs.Recognizer.{state_in};
ghost use Rattle.learn.specs.Learnt.{learning_of};

use answers::Refusal;
use grammar::Grammar;
use recognizer::state::{front, invalid};
use recognizer::{Recognizer, says};

// What learning gives: whether the input so far is complete, the offset of a fault, the grammar and the state. These stand beside the
// answer, and not in its Ok, since the contract of `learn` says what they are after a refusal too.
#[derive(Clone, Copy)]
pub struct Learnt {
    pub accepted: Result<bool, Refusal>,
    pub offset: usize,
    pub grammar: Grammar,
    pub recognizer: Recognizer,
}

// A refused call gives back grammar and state as they were.
fn refused(h: Recognizer, g: Grammar, r: Refusal, at: usize) -> Learnt
    ensures { (verdict_of result.accepted ≡ refused_with (number_of r)) × (result.offset ≡ at) × (result.grammar ≡ g) × (result.recognizer ≡ h) }
{
    Learnt {
        accepted: Err(r),
        offset: at,
        grammar: g,
        recognizer: h,
    }
}

// The rule is learnt, and g is the longer grammar: the chart is filled for the bytes of the state, in its year.
fn filling(h: Recognizer, g: Grammar, chart: &mut [u32]) -> Learnt
    requires { (valid_grammar g ≡ true) × (h.count ≤ max_input) × (cells ≤ length chart.old) }
    ensures { learning_of result chart.new ≡ learn_in g (state_in h) chart.old }
{
    let n = h.count;
    let bytes = front(h, n);
    let points = h.points;
    fill_input::fill(g, &bytes[..n], h.year, chart);
    Learnt {
        accepted: says(g.start, n, chart),
        offset: 0,
        grammar: g,
        recognizer: Recognizer {
            bytes,
            count: n,
            year: h.year,
            points,
        },
    }
}

// Learns, once the checks of grammar, state and chart are passed.
fn learning(h: Recognizer, g: Grammar, bytes: &[u8], chart: &mut [u32]) -> Learnt
    requires { (valid_grammar g ≡ true) × ((state_check (state_in h)).fails ≡ false) × (cells ≤ length chart.old) }
    ensures { learning_of result chart.new ≡ learn_of g (state_in h) bytes.now chart.old }
{
    let read = reading::enlarge(g, bytes);
    match read.outcome {
        Ok(()) => filling(h, read.grammar, chart),
        Err(fault) => refused(h, read.grammar, fault.refusal, fault.at),
    }
}

// Learns the rule of these bytes, in the year of the state. Refusals 8, 14 and 10, then those of the bytes.
pub fn learn(h: Recognizer, g: Grammar, bytes: &[u8], chart: &mut [u32]) -> Learnt
    ensures { learning_of result chart.new ≡ learn_of g (state_in h) bytes.now chart.old }
{
    let room = chart.len();
    if !grammar::valid(g) {
        return refused(h, g, Refusal::InvalidGrammar, 0);
    }
    if invalid(h) {
        return refused(h, g, Refusal::InvalidRecognizer, 0);
    }
    if room < sizes::CELLS {
        return refused(h, g, Refusal::ChartTooShort, 0);
    }
    learning(h, g, bytes, chart)
}
