// The function of learning a rule that C and Rust link.
ghost use Rattle.c_grammar.specs.Flat.{grammar_in};
ghost use Rattle.c_hand.specs.Hand.{state_of_row};
ghost use Rattle.results.specs.Learn.{learn_of};
ghost use Rattle.filbozseg.specs.Calls.{Learns};

use c_grammar::Flat;

// Learns the rule of these bytes, and leaves the rows of the longer grammar and of the state. A refused call leaves both rows and the chart
// as found. The offset is written only where it is refused. Grammar and state are handed on without a name: each copy of a grammar takes 7 KB of stack.
#[unsafe(no_mangle)]
pub extern "C" fn filbozseg_learn(
    grammar: &mut Flat,
    hand: &mut [u16; c_hand::HAND],
    bytes: &[u8],
    chart: &mut [u32],
    offset: &mut usize,
) -> u32
    ensures { Learns
        (learn_of (grammar_in grammar.old) (state_of_row hand.old) bytes.now chart.old)
        grammar.old hand.old offset.old
        result grammar.new hand.new chart.new offset.new }
{
    let l = learn::learn(
        c_hand::read(hand),
        c_grammar::read::read(grammar),
        bytes,
        chart,
    );
    let accepted = l.accepted;
    c_answer::learning::of_learning(
        accepted,
        l.offset,
        l.grammar,
        l.recognizer,
        grammar,
        hand,
        offset,
    )
}
