// Writes a derivation (reading) as a text: each node as the name of its rule with what is below it in parentheses.
#![tactic(auto)]

ghost use Rattle.std.specs.Prelude.{List, ◌≡◌, ℕ, ◌≤◌, length};
ghost use Rattle.sizes.specs.Sizes.{max_input};
ghost use Rattle.cfg.specs.Listing.{L};
ghost use Rattle.packed.specs.Packed.{cfg_in};
ghost use Rattle.theory_words.specs.Words.{derivation_text};
ghost use Rattle.grammar.specs.View.{dated};
ghost use Rattle.answers.specs.Answers.{written_of};
ghost use Rattle.results.specs.Words.{words_of};
ghost use Rattle.words_text.specs.Names.{names_size, text_in};
ghost use Rattle.words.specs.Answer.{writing_of, words_filled};

use answers::Refusal;
use check_walk::derivation::is_derivation;
use grammar::Grammar;
use packed::Packed;
use words_text::Names;
use words_write::Cursor;

pub mod row;

// The text of an offered derivation, written to the front of the buffer if it has room for it.
fn write_offered(
    names: &Names,
    p: &Packed,
    start: usize,
    input: &[u8],
    offered: &[u16],
    buffer: &mut [u8],
) -> Result<usize, Refusal>
    requires { (length names.now ≡ names_size) × (length input.now ≤ max_input) }
    ensures { (chart : List ℕ) → writing_of (written_of result) chart buffer.new
        ≡ words_filled (L (cfg_in start p.now) input.now) offered.now
        (derivation_text (cfg_in start p.now) (text_in names.now) input.now offered.now)
        chart buffer.old }
{
    if !is_derivation(p, start, input, offered) {
        return Err(Refusal::NotADerivation);
    }
    let n = words_length::text_length(names, p, input.len(), offered);
    if n > buffer.len() {
        return Err(Refusal::TextTooLong);
    }
    let root = Cursor {
        node: 0,
        byte: 0,
        at: 0,
    };
    let end = words_write::put_node(names, p, input, offered, sizes::MAX_NODES, root, buffer);
    Ok(end.at)
}

// ---- the exported call

// Writes the offered derivation to the front of the buffer, and answers how many bytes its text has. Refusals 8, 9, 10, 12 and 18.
pub fn words(
    g: Grammar,
    input: &[u8],
    year: u16,
    offered: &[u16],
    chart: &mut [u32],
    buffer: &mut [u8],
) -> Result<usize, Refusal>
    ensures { writing_of (written_of result) chart.new buffer.new
        ≡ words_of (dated g year) input.now offered.now chart.old buffer.old }
{
    fill_input::judge(g, input.len(), chart.len())?;
    let p = fill_input::fill(g, input, year, chart);
    let names = row::names_of(g);
    write_offered(&names, &p, usize::from(g.start), input, offered, buffer)
}
