// What the exported function of learning returns for its answer, and what the answer leaves in the rows and the number that were lent.
ghost use Rattle.std.specs.Prelude.{◌≡◌};
ghost use Rattle.answers.specs.Answers.{verdict_of};
ghost use Rattle.recognizer.specs.Recognizer.{state_in};
ghost use Rattle.c_answer.specs.Code.{code_of, left_of, verdict_code, row_left, flat_left, fault_left};

use super::of_verdict;
use answers::Refusal;
use c_grammar::Flat;
use grammar::Grammar;
use recognizer::Recognizer;

// Learning: the rows of the longer grammar and of the state are written unless the call is refused, and the offset only where it is.
pub fn of_learning(
    v: Result<bool, Refusal>,
    at: usize,
    longer: Grammar,
    next: Recognizer,
    grammar: &mut Flat,
    hand: &mut [u16; c_hand::HAND],
    offset: &mut usize,
) -> u32
    ensures value { result ≡ code_of verdict_code (verdict_of v) }
    ensures at { offset.new ≡ fault_left at (verdict_of v) offset.old }
    ensures learnt { grammar.new ≡ left_of (flat_left longer) (verdict_of v) grammar.old }
    ensures left { hand.new ≡ left_of (row_left (state_in next)) (verdict_of v) hand.old }
{
    if v.is_ok() {
        c_grammar::write::write(longer, grammar);
        c_hand::write(next, hand);
    } else {
        *offset = at;
    }
    of_verdict(v)
}
