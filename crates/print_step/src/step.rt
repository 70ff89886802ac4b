// Writes one line after the other.
ghost use Rattle.std.specs.Prelude.{◌≡◌, ◌+◌, ◌<◌, ◌≤◌, length};
ghost use Rattle.check_length.specs.Measure.{lengths_in};
ghost use Rattle.print_number.specs.Put.{Put};
ghost use Rattle.print_line.specs.Sizes.{line_size};
ghost use Rattle.sizes.specs.Sizes.{max_rules, max_nodes, side, cells, output_size, most};
ghost use Rattle.print_begin.specs.Due.{DueSized};
ghost use Rattle.print_step.specs.Stepped.{line_in, Followed, Stepped};

use check_length::{Lengths, rounded, total};
use next_made::successor::advance_root;
use packed::Packed;
use packed_fit::FitTable;
use print_begin::Due;
use print_line::fixed::{put_more, put_no_reading, put_readings, put_refused};
use print_line::line::put_line;
use sizes::MOST;
use table_all::made::Made;
use table_layout::layout::Tables;
use tree_node::Root;

// How many bytes the written line has, and what is due then.
#[derive(Clone, Copy)]
pub struct Printed {
    pub bytes: usize,
    pub due: Due,
}

// After the last line nothing is due.
fn last(bytes: usize) -> Printed
    ensures { (result.bytes ≡ bytes) × (result.due ≡ Due.Nothing) }
{
    Printed {
        bytes,
        due: Due::Nothing,
    }
}

// Writes the line of derivation i, which is in the buffer.
fn reading(lengths: &Lengths, buf: &[u16], i: usize, nodes: usize, out: &mut [u8]) -> usize
    requires { (length lengths.now ≡ max_rules) × (i < most) × (nodes ≤ max_nodes) × (output_size ≤ length buf.now)
        × (line_size ≤ length out.old) }
    ensures { Put (line_in (lengths_in lengths.now) (i + 1) nodes buf.now) 0 result
        out.old out.new }
{
    let z = rounded(total(lengths, &buf[..2 * nodes]));
    put_line(i + 1, buf, nodes, z, out)
}

// Finds what is due after derivation i, which is in the buffer. If there is a next derivation, it is in the buffer then.
fn following(made: &Made, root: Root, i: usize, buf: &mut [u16]) -> Due
    requires { (i < most) × (output_size ≤ length buf.old) }
    ensures { Followed made.now.p.now made.now.rules made.now.fits.now made.now.chart.now made.now.tables.now
        root.start root.n i buf.old buf.new result }
{
    let Root { start, n } = root;
    let Some(nodes) = advance_root(made, root, buf) else {
        return Due::Total(i + 1);
    };
    if i + 1 == MOST {
        return Due::More;
    }
    Due::Reading {
        start,
        rules: made.rules,
        n,
        i: i + 1,
        nodes,
    }
}

// Writes the line that is due, and finds what is due after it.
pub fn step(
    due: Due,
    p: &Packed,
    lengths: &Lengths,
    fits: &FitTable,
    chart: &[u32],
    tables: &Tables,
    buf: &mut [u16],
    out: &mut [u8],
) -> Printed
    requires { DueSized due × (length lengths.now ≡ max_rules) × (cells ≤ length chart.now) × (output_size ≤ length buf.old)
        × (line_size ≤ length out.old) }
    ensures { Stepped (lengths_in lengths.now) p.now fits.now chart.now
        tables.now due buf.old buf.new out.old out.new result.bytes result.due }
{
    match due {
        Due::Refusal(n) => last(put_refused(n, out)),
        Due::NoReading => last(put_no_reading(out)),
        Due::Reading {
            start,
            rules,
            n,
            i,
            nodes,
        } => {
            let bytes = reading(lengths, buf, i, nodes, out);
            let made = Made {
                p,
                rules,
                fits,
                chart,
                tables,
            };
            let then = following(&made, Root { start, n }, i, buf);
            Printed { bytes, due: then }
        }
        Due::Total(n) => last(put_readings(n, out)),
        Due::More => last(put_more(out)),
        Due::Nothing => last(0),
    }
}
