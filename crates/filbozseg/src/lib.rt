// The functions that C and Rust link. They take numbers, slices and arrays: a grammar is a flat row (crate c_grammar), a state of the
// recognizer is a row (crate c_hand), and an answer is a number (crate c_answer). A lent number is written only if the answer has one.
#![tactic(auto)]

pub mod enumerate;
pub mod learning;
pub mod name;
pub mod recall;
pub mod texts;

ghost use Rattle.c_grammar.specs.Flat.{grammar_in};
ghost use Rattle.grammar.specs.View.{dated};
ghost use Rattle.c_hand.specs.Hand.{state_of_row};
ghost use Rattle.results.specs.Check.{check_of};
ghost use Rattle.results.specs.Measure.{length_of, same_build_of};
ghost use Rattle.results.specs.Recognize.{open_of, take_of};
ghost use Rattle.filbozseg.specs.Calls.{Loads, Opens, Takes, Checks, Measures};

use c_grammar::Flat;

// Loads a book and leaves the row of its grammar. A refused book leaves a grammar of no rules, and only then the offset is written.
#[unsafe(no_mangle)]
pub extern "C" fn filbozseg_load(book: &[u8], grammar: &mut Flat, offset: &mut usize) -> u32
    ensures { Loads book.now offset.old result grammar.new offset.new }
{
    let l = load::load(book);
    let g = l.grammar;
    let outcome = l.outcome;
    c_grammar::write::write(g, grammar);
    c_answer::of_loading(outcome, offset)
}

// Opens the recognizer with a year, and leaves the state of no bytes, which keeps the year.
#[unsafe(no_mangle)]
pub extern "C" fn filbozseg_open(
    grammar: &Flat,
    year: u16,
    hand: &mut [u16; c_hand::HAND],
    chart: &mut [u32],
) -> u32
    ensures { Opens
        (open_of (dated (grammar_in grammar.now) year) chart.old)
        result hand.new chart.new }
{
    let a = recognizer::open(c_grammar::read::read(grammar), year, chart);
    let h = a.recognizer;
    let accepted = a.accepted;
    c_hand::write(h, hand);
    c_answer::of_verdict(accepted)
}

// Takes a byte and leaves the state with the byte. A refused call leaves the row as found.
#[unsafe(no_mangle)]
pub extern "C" fn filbozseg_take(
    grammar: &Flat,
    hand: &mut [u16; c_hand::HAND],
    byte: u8,
    chart: &mut [u32],
) -> u32
    ensures { Takes
        (take_of (grammar_in grammar.now) (state_of_row hand.old) byte chart.old)
        hand.old result hand.new chart.new }
{
    let found = c_hand::read(hand);
    let a = found.take(c_grammar::read::read(grammar), byte, chart);
    let next = a.recognizer;
    let accepted = a.accepted;
    c_answer::of_taking(accepted, next, hand)
}

// Whether the offered row is a derivation (reading) of the input.
#[unsafe(no_mangle)]
pub extern "C" fn filbozseg_check(
    grammar: &Flat,
    input: &[u8],
    year: u16,
    offered: &[u16],
    chart: &mut [u32],
) -> u32
    ensures { Checks
        (check_of (dated (grammar_in grammar.now) year) input.now offered.now chart.old)
        result chart.new }
{
    c_answer::of_verdict(checker::check(
        c_grammar::read::read(grammar),
        input,
        year,
        offered,
        chart,
    ))
}

// The length of an offered derivation, in tenths of a millimetre. A refused call leaves the number as found.
#[unsafe(no_mangle)]
pub extern "C" fn filbozseg_length(
    grammar: &Flat,
    input: &[u8],
    year: u16,
    offered: &[u16],
    chart: &mut [u32],
    tenths: &mut i32,
) -> u32
    ensures { Measures
        (length_of (dated (grammar_in grammar.now) year) input.now offered.now chart.old)
        tenths.old result chart.new tenths.new }
{
    let measured = checker::length(c_grammar::read::read(grammar), input, year, offered, chart);
    c_answer::of_length(measured, tenths)
}

// Whether two offered derivations are the same build.
#[unsafe(no_mangle)]
pub extern "C" fn filbozseg_same_build(
    grammar: &Flat,
    input: &[u8],
    year: u16,
    a: &[u16],
    b: &[u16],
    chart: &mut [u32],
) -> u32
    ensures { Checks
        (same_build_of (dated (grammar_in grammar.now) year) input.now a.now b.now
        chart.old)
        result chart.new }
{
    c_answer::of_verdict(checker::same_build(
        c_grammar::read::read(grammar),
        input,
        year,
        a,
        b,
        chart,
    ))
}
