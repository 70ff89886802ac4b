// The function of words that C and Rust link.
ghost use Rattle.c_grammar.specs.Flat.{grammar_in};
ghost use Rattle.grammar.specs.View.{dated};
ghost use Rattle.results.specs.Words.{words_of};
ghost use Rattle.filbozseg.specs.Calls.{Writes};

use c_grammar::Flat;

// Writes an offered derivation (reading) as a text to the front of the buffer, and how many bytes it has. A refused call leaves the buffer
// and the number as found.
#[unsafe(no_mangle)]
pub extern "C" fn filbozseg_words(
    grammar: &Flat,
    input: &[u8],
    year: u16,
    offered: &[u16],
    chart: &mut [u32],
    buffer: &mut [u8],
    bytes: &mut usize,
) -> u32
    ensures { Writes
        (words_of (dated (grammar_in grammar.now) year) input.now offered.now
        chart.old buffer.old)
        bytes.old result chart.new buffer.new bytes.new }
{
    let written = words::words(
        c_grammar::read::read(grammar),
        input,
        year,
        offered,
        chart,
        buffer,
    );
    c_answer::of_words(written, bytes)
}
