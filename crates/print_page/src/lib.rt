// The listing in pages: each page has as many further lines as fit into a lent buffer.
#![tactic(auto)]

ghost use Rattle.std.specs.Prelude.{◌≡◌, ◌≤◌, length};
ghost use Rattle.print_begin.specs.Due.{DueSized};
ghost use Rattle.check_length.specs.Measure.{lengths_in};
ghost use Rattle.sizes.specs.Sizes.{max_rules, cells, output_size};
ghost use Rattle.print_page.specs.Page.{page_size, is_done, Paged};

use check_length::Lengths;
use packed::Packed;
use packed_fit::FitTable;
use print_begin::Due;
use print_step::step::step;
use table_layout::layout::Tables;

// The most bytes that a page has.
pub const PAGE: usize = 65536;

// A page with at most this many bytes has room for any further line.
const ROOM: usize = PAGE - print_line::LINE;

// A page: how many bytes of the buffer it has, and what is due after it.
#[derive(Clone, Copy)]
pub struct Page {
    pub bytes: usize,
    pub due: Due,
}

// Whether all lines are printed.
pub fn is_done(due: Due) -> bool
    ensures { result ≡ is_done due }
{
    match due {
        Due::Refusal(_) => false,
        Due::NoReading => false,
        Due::Reading { .. } => false,
        Due::Total(_) => false,
        Due::More => false,
        Due::Nothing => true,
    }
}

// Writes the next page to the front of the buffer.
pub fn fill_page(
    due: Due,
    p: &Packed,
    lengths: &Lengths,
    fits: &FitTable,
    chart: &[u32],
    tables: &Tables,
    buf: &mut [u16],
    out: &mut [u8],
) -> Page
    requires { DueSized due × (length lengths.now ≡ max_rules) × (cells ≤ length chart.now) × (output_size ≤ length buf.old)
        × (length out.old ≡ page_size) }
    ensures { Paged (lengths_in lengths.now) p.now fits.now chart.now
        tables.now due buf.old buf.new out.old out.new result.bytes result.due }
{
    let mut then = due;
    let mut at = 0;
    while !is_done(then) {
        let s = step(then, p, lengths, fits, chart, tables, buf, &mut out[at..]);
        let end = at + s.bytes;
        then = s.due;
        if end > ROOM {
            return Page {
                bytes: end,
                due: then,
            };
        }
        at = end;
    }
    Page {
        bytes: at,
        due: then,
    }
}
