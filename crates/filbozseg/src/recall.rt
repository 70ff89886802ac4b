// The functions of points, to set one and to return to it, that C and Rust link.
ghost use Rattle.c_grammar.specs.Flat.{grammar_in};
ghost use Rattle.c_hand.specs.Hand.{state_of_row};
ghost use Rattle.results.specs.Points.{set_point_of, return_to_of};
ghost use Rattle.filbozseg.specs.Calls.{Takes};

use c_grammar::Flat;

// Sets the point of this name and leaves the state with it. No cell is written. A refused call leaves the row as found.
#[unsafe(no_mangle)]
pub extern "C" fn filbozseg_set_point(
    grammar: &Flat,
    hand: &mut [u16; c_hand::HAND],
    name: usize,
    chart: &[u32],
) -> u32
    ensures { Takes
        (set_point_of (grammar_in grammar.now) (state_of_row hand.old) name chart.now)
        hand.old result hand.new chart.now }
{
    let found = c_hand::read(hand);
    let a = points::set_point(found, c_grammar::read::read(grammar), name, chart);
    let next = a.recognizer;
    let accepted = a.accepted;
    c_answer::of_taking(accepted, next, hand)
}

// Returns to the point of this name and leaves the state that was there. A refused call leaves the row as found.
#[unsafe(no_mangle)]
pub extern "C" fn filbozseg_return_to(
    grammar: &Flat,
    hand: &mut [u16; c_hand::HAND],
    name: usize,
    chart: &mut [u32],
) -> u32
    ensures { Takes
        (return_to_of (grammar_in grammar.now) (state_of_row hand.old) name chart.old)
        hand.old result hand.new chart.new }
{
    let found = c_hand::read(hand);
    let a = points::return_to(found, c_grammar::read::read(grammar), name, chart);
    let next = a.recognizer;
    let accepted = a.accepted;
    c_answer::of_taking(accepted, next, hand)
}
