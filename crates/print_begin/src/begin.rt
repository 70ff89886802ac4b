// Finds the first line that is due, from the bytes of the book, of the file with the year and of the plate.
ghost use Rattle.std.specs.Prelude.{true, ◌≡◌, ◌≤◌, length};
ghost use Rattle.theory_costs.specs.Span.{bytes_of};
ghost use Rattle.packed_fit.specs.Fit.{Told};
ghost use Rattle.grammar.specs.Valid.{valid_grammar};
ghost use Rattle.grammar.specs.View.{dated};
ghost use Rattle.sizes.specs.Sizes.{max_rules, max_input, cells, output_size};
ghost use Rattle.answers.specs.Number.{number_of};
ghost use Rattle.table_layout.specs.Exact.{ChartTrue};
ghost use Rattle.table_layout.specs.Layout.{tables_size};
ghost use Rattle.print_begin.specs.Due.{DueSized};
ghost use Rattle.print_begin.specs.Begun.{TreeBegun, FilledBegun, InputBegun, BookBegun};

use super::Due;
use super::year::year_in;
use answers::Refusal;
use check_length::Lengths;
use first_made::{build, exists, write_first};
use grammar::Grammar;
use packed::Packed;
use packed_fit::FitTable;
use table_all::made::Made;
use table_layout::layout::Tables;
use tree_node::Root;

// The line of a refusal, by the number that document 01 gives it.
fn refused(r: Refusal) -> Due
    ensures due { result ≡ Due.Refusal (number_of r) }
    ensures sized { DueSized result }
{
    Due::Refusal(usize::from(u8::from(r)))
}

// Finds the first line that is due if trees exist, once the chart is filled and the fit table is made. It makes the tables and writes the
// first derivation into the buffer.
fn begin_tree(
    p: &Packed,
    start: usize,
    input: &[u8],
    chart: &[u32],
    fits: &FitTable,
    tables: &mut Tables,
    buf: &mut [u16],
) -> Due
    requires { (length input.now ≤ max_input) × (cells ≤ length chart.now) × (length tables.old ≡ tables_size)
        × (output_size ≤ length buf.old) × Told p.now input.now fits.now
        × ChartTrue p.now (bytes_of input.now) chart.now (length input.now) }
    ensures { TreeBegun p.now start input.now chart.now fits.now tables.new
        buf.old buf.new result }
{
    let rules = build(p, input, fits, chart, tables);
    let n = input.len();
    if !exists(tables, start, n) {
        return refused(Refusal::OnlyLargerTrees);
    }
    let made = Made {
        p,
        rules,
        fits,
        chart,
        tables,
    };
    let nodes = write_first(&made, Root { start, n }, buf);
    Due::Reading {
        start,
        rules,
        n,
        i: 0,
        nodes,
    }
}

// Finds the first line that is due, once the chart is filled and the fit table is made.
fn begin_filled(
    p: &Packed,
    start: usize,
    input: &[u8],
    chart: &[u32],
    fits: &FitTable,
    tables: &mut Tables,
    buf: &mut [u16],
) -> Due
    requires { (length input.now ≤ max_input) × (cells ≤ length chart.now) × (length tables.old ≡ tables_size)
        × (output_size ≤ length buf.old) × Told p.now input.now fits.now
        × ChartTrue p.now (bytes_of input.now) chart.now (length input.now) }
    ensures { FilledBegun p.now start input.now chart.now fits.now tables.new
        buf.old buf.new result }
{
    if fill_columns::complete(start, input.len(), chart) {
        begin_tree(p, start, input, chart, fits, tables, buf)
    } else {
        Due::NoReading
    }
}

// Finds the first line that is due for an input, its year and a valid grammar.
fn begin_input(
    g: Grammar,
    input: &[u8],
    year: u16,
    p: &mut Packed,
    lengths: &mut Lengths,
    chart: &mut [u32],
    fits: &mut FitTable,
    tables: &mut Tables,
    buf: &mut [u16],
) -> Due
    requires { (valid_grammar g ≡ true) × (length lengths.old ≡ max_rules) × (cells ≤ length chart.old)
        × (length tables.old ≡ tables_size) × (output_size ≤ length buf.old) }
    ensures { InputBegun (dated g year) input.now p.new lengths.new chart.old
        chart.new fits.new tables.new buf.old buf.new result }
{
    match fill_input::judge(g, input.len(), chart.len()) {
        Err(r) => refused(r),
        Ok(()) => {
            *p = fill_input::fill_fits(g, input, year, fits, chart);
            *lengths = check_length::lengths_of(g);
            begin_filled(p, usize::from(g.start), input, chart, fits, tables, buf)
        }
    }
}

// Finds the first line that is due, from the bytes of the book, of the file with the year and of the plate. The book is checked before the
// plate.
pub fn begin(
    book: &[u8],
    file: &[u8],
    input: &[u8],
    p: &mut Packed,
    lengths: &mut Lengths,
    chart: &mut [u32],
    fits: &mut FitTable,
    tables: &mut Tables,
    buf: &mut [u16],
) -> Due
    requires { (length lengths.old ≡ max_rules) × (cells ≤ length chart.old) × (length tables.old ≡ tables_size)
        × (output_size ≤ length buf.old) }
    ensures { BookBegun book.now file.now input.now p.new lengths.new
        chart.old chart.new fits.new tables.new buf.old buf.new result }
{
    let year = year_in(file);
    let b = load::load(book);
    match b.outcome {
        Err(fault) => refused(fault.refusal),
        Ok(()) => begin_input(b.grammar, input, year, p, lengths, chart, fits, tables, buf),
    }
}
