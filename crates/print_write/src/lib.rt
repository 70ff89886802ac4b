// Writes the pages of the listing to standard output.
#![tactic(auto)]

ghost use Rattle.std.specs.Prelude.{◌≡◌, ◌+◌, ◌≤◌, length, IfOk, IfErr};
ghost use Rattle.print_begin.specs.Due.{Ahead, DueSized};
ghost use Rattle.check_length.specs.Measure.{lengths_in};
ghost use Rattle.print_page.specs.Page.{page_size};
ghost use Rattle.sizes.specs.Sizes.{max_rules, cells, output_size};
ghost use Rattle.text.specs.Text.{text_of};
ghost use Rattle.print_write.specs.Listed.{max_text, Next, Handed};

use check_length::Lengths;
use packed::Packed;
use packed_fit::FitTable;
use print_begin::Due;
use print_page::{PAGE, fill_page, is_done};
use std::io::{Cursor, Error, ErrorKind, Write};
use table_layout::layout::Tables;

// The most pages that there are: each has at least one line, and the last line follows those of the derivations.
const PAGES: usize = sizes::MOST + 1;

// The most bytes of the reason why standard output can't be written.
const REASON: usize = 128;

// Why a page could not be written, and how many bytes were handed to the write by then, with those of that page.
#[derive(Clone, Copy)]
pub struct Unwritten {
    pub bytes: usize,
    pub kind: ErrorKind,
}

// Says on standard error why standard output can't be written: the reason that the error has, without the number after it.
fn fail(rt: &impl Eprint, error: &Error) {
    let mut text = Cursor::new([0u8; REASON]);
    let _ = write!(text, "{error}");
    let n = (text.position() as usize).min(REASON);
    let bytes = text.into_inner();
    let said = str::from_utf8(&bytes[..n]).unwrap_or("");
    let reason = match said.split_once(" (os error ") {
        Some((front, _)) => front,
        None => said,
    };
    let _ = eprintln!(rt; "list: standard output: {reason}");
}

// Writes all bytes to standard output, or returns what kind of error there is. Standard error says so, unless it is a pipe that nobody reads.
fn write_all(rt: &(impl Print + Eprint), bytes: &[u8]) -> Result<(), ErrorKind> {
    match rt.write_all(bytes) {
        Ok(()) => Ok(()),
        Err(error) => {
            let kind = error.kind();
            if kind != ErrorKind::BrokenPipe {
                fail(rt, &error);
            }
            Err(kind)
        }
    }
}

// Hands bytes to the write. The `requires` says that they are those of the text of book, file with the year and plate after the first
// `before` bytes, and these three are parameters only for that. Returns how many bytes are handed on then, also if they can't be written.
fn write(
    rt: &(impl Print + Eprint),
    book: &[u8],
    file: &[u8],
    plate: &[u8],
    before: usize,
    bytes: &[u8],
) -> Result<usize, Unwritten>
    requires { (before ≤ max_text) × (length bytes.now ≤ page_size) × Next book.now file.now plate.now before bytes.now }
    ensures written { IfOk result (λ n. n ≡ before + length bytes.now) }
    ensures unwritten { IfErr result (λ e. e.bytes ≡ before + length bytes.now) }
{
    let after = before + bytes.len();
    match write_all(rt, bytes) {
        Ok(()) => Ok(after),
        Err(kind) => Err(Unwritten { bytes: after, kind }),
    }
}

// Writes page after page until nothing is due, and returns how many bytes they have. If a page can't be written, it returns why, and how
// many bytes were handed on by then.
pub fn write_pages(
    rt: &(impl Print + Eprint),
    book: &[u8],
    file: &[u8],
    plate: &[u8],
    due: Due,
    p: &Packed,
    lengths: &Lengths,
    fits: &FitTable,
    chart: &[u32],
    tables: &Tables,
    buf: &mut [u16],
) -> Result<usize, Unwritten>
    requires { DueSized due × (length lengths.now ≡ max_rules) × (cells ≤ length chart.now) × (output_size ≤ length buf.old)
        × Ahead (lengths_in lengths.now) p.now fits.now chart.now tables.now buf.old due
        (text_of book.now file.now plate.now) }
    ensures { IfOk result (λ n. Handed (lengths_in lengths.now) p.now fits.now chart.now
        tables.now due buf.old n) }
{
    let mut out = [0u8; PAGE];
    let mut then = due;
    let mut bytes = 0;
    for _ in 0..PAGES {
        if is_done(then) {
            break;
        }
        let t = fill_page(then, p, lengths, fits, chart, tables, buf, &mut out);
        let n = t.bytes;
        bytes = write(rt, book, file, plate, bytes, &out[..n])?;
        then = t.due;
    }
    Ok(bytes)
}
