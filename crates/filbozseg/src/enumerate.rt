// The functions of first, next and count that C and Rust link.
ghost use Rattle.c_grammar.specs.Flat.{grammar_in};
ghost use Rattle.grammar.specs.View.{dated};
ghost use Rattle.results.specs.Enumerate.{first_of, next_of, count_of};
ghost use Rattle.filbozseg.specs.Calls.{Hands, Counts};

use c_grammar::Flat;

// Writes the first derivation (reading) of the input to the front of the output, and how many nodes (parts) it has. If none is handed out,
// the output and the number stay as found.
#[unsafe(no_mangle)]
pub extern "C" fn filbozseg_first(
    grammar: &Flat,
    input: &[u8],
    year: u16,
    chart: &mut [u32],
    output: &mut [u16],
    nodes: &mut usize,
) -> u32
    ensures { Hands
        (first_of (dated (grammar_in grammar.now) year) input.now chart.old output.old)
        nodes.old result chart.new output.new nodes.new }
{
    let handed = first::first(c_grammar::read::read(grammar), input, year, chart, output);
    c_answer::of_handing(handed, nodes)
}

// Writes the derivation after the offered one to the front of the output, and how many nodes it has. If none is handed out, the output and
// the number stay as found.
#[unsafe(no_mangle)]
pub extern "C" fn filbozseg_next(
    grammar: &Flat,
    input: &[u8],
    year: u16,
    offered: &[u16],
    chart: &mut [u32],
    output: &mut [u16],
    nodes: &mut usize,
) -> u32
    ensures { Hands
        (next_of (dated (grammar_in grammar.now) year) input.now offered.now
        chart.old output.old)
        nodes.old result chart.new output.new nodes.new }
{
    let handed = next::next(
        c_grammar::read::read(grammar),
        input,
        year,
        offered,
        chart,
        output,
    );
    c_answer::of_handing(handed, nodes)
}

// How many derivations the input has. If there are more than 4,096, or the call is refused, the number stays as found.
#[unsafe(no_mangle)]
pub extern "C" fn filbozseg_count(
    grammar: &Flat,
    input: &[u8],
    year: u16,
    chart: &mut [u32],
    figure: &mut usize,
) -> u32
    ensures { Counts
        (count_of (dated (grammar_in grammar.now) year) input.now chart.old)
        figure.old result chart.new figure.new }
{
    let counted = count::count(c_grammar::read::read(grammar), input, year, chart);
    c_answer::of_figure(counted, figure)
}
