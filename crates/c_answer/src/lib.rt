// The codes that the exported functions return for their answers, and what each answer leaves in the place that was lent for it. A code is
// 0 for no and none; 1 for yes, loaded, measured, written, handed out and counted; 2 for more; 256 + n for refusal n.
#![tactic(auto)]

pub mod learning;

ghost use Rattle.std.specs.Prelude.{◌+◌, ◌≡◌};
ghost use Rattle.answers.specs.Number.{number_of};
ghost use Rattle.answers.specs.Answers.{measured_of, written_of, counted_of, handing_of, outcome_of, verdict_of};
ghost use Rattle.recognizer.specs.Recognizer.{state_in};
ghost use Rattle.c_answer.specs.Code.{code_of, left_of, verdict_code, row_left, length_code, tenths_left, handing_code, nodes_left};
ghost use Rattle.c_answer.specs.Code.{words_code, bytes_left, figure_code, figure_left, load_code, offset_left};

use answers::{Fault, Figure, Refusal};
use recognizer::Recognizer;

// A refusal: 256 plus its number.
pub fn of_refusal(r: Refusal) -> u32
    ensures { result ≡ 256 + number_of r }
{
    256 + u32::from(u8::from(r))
}

// Opening, learning, check and same build.
pub fn of_verdict(v: Result<bool, Refusal>) -> u32
    ensures { result ≡ code_of verdict_code (verdict_of v) }
{
    match v {
        Ok(true) => 1,
        Ok(false) => 0,
        Err(r) => of_refusal(r),
    }
}

// Loading: the offset is written only where the book is refused.
pub fn of_loading(outcome: Result<(), Fault>, offset: &mut usize) -> u32
    ensures value { result ≡ load_code (outcome_of outcome) }
    ensures left { offset.new ≡ offset_left (outcome_of outcome) offset.old }
{
    match outcome {
        Ok(()) => 1,
        Err(fault) => {
            *offset = fault.at;
            of_refusal(fault.refusal)
        }
    }
}

// Taking: the row of the new state is written unless the call is refused.
pub fn of_taking(v: Result<bool, Refusal>, next: Recognizer, hand: &mut [u16; c_hand::HAND]) -> u32
    ensures value { result ≡ code_of verdict_code (verdict_of v) }
    ensures left { hand.new ≡ left_of (row_left (state_in next)) (verdict_of v) hand.old }
{
    if v.is_ok() {
        c_hand::write(next, hand);
    }
    of_verdict(v)
}

// Length: the tenths are written unless the call is refused.
pub fn of_length(measured: Result<i32, Refusal>, tenths: &mut i32) -> u32
    ensures value { result ≡ code_of length_code (measured_of measured) }
    ensures left { tenths.new ≡ left_of tenths_left (measured_of measured) tenths.old }
{
    match measured {
        Ok(z) => {
            *tenths = z;
            1
        }
        Err(r) => of_refusal(r),
    }
}

// Words: the number of bytes is written unless the call is refused.
pub fn of_words(written: Result<usize, Refusal>, bytes: &mut usize) -> u32
    ensures value { result ≡ code_of words_code (written_of written) }
    ensures left { bytes.new ≡ left_of bytes_left (written_of written) bytes.old }
{
    match written {
        Ok(n) => {
            *bytes = n;
            1
        }
        Err(r) => of_refusal(r),
    }
}

// First and next: the nodes are written only where a derivation is handed out.
pub fn of_handing(handed: Result<Option<usize>, Refusal>, nodes: &mut usize) -> u32
    ensures value { result ≡ code_of handing_code (handing_of handed) }
    ensures left { nodes.new ≡ left_of nodes_left (handing_of handed) nodes.old }
{
    match handed {
        Ok(Some(n)) => {
            *nodes = n;
            1
        }
        Ok(None) => 0,
        Err(r) => of_refusal(r),
    }
}

// Count: the figure is written only where there is one.
pub fn of_figure(counted: Result<Figure, Refusal>, figure: &mut usize) -> u32
    ensures value { result ≡ code_of figure_code (counted_of counted) }
    ensures left { figure.new ≡ left_of figure_left (counted_of counted) figure.old }
{
    match counted {
        Ok(Figure::Exactly(n)) => {
            *figure = n;
            1
        }
        Ok(Figure::More) => 2,
        Err(r) => of_refusal(r),
    }
}
