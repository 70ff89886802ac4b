// The listing program: the book is the file `book.bin`, the year is in the file `year.bin`, the plate is standard input, and the text goes
// to standard output.
#![tactic(auto)]

ghost use Rattle.std.specs.Prelude.{◌≡◌, length, IfOk};
ghost use Rattle.std.specs.Counts.{IsPrefixLen};
ghost use Rattle.text.specs.Front.{book_front, year_front, plate_front};
ghost use Rattle.print_write.specs.Listed.{Listed};

use packed::PACKED_SIZE;
use print_begin::begin::begin;
use print_write::{Unwritten, write_pages};
use std::fs;
use std::io::{ErrorKind, Read};
use std::process::ExitCode;
use std::rt::Files;
use table_layout::layout::TABLES_SIZE;

// The most bytes of a book that are read: no further byte changes the text.
const BOOK: usize = 8192;

// The most bytes of the file with the year that are read, likewise: one more than such a file has.
const YEAR: usize = 3;

// The most bytes of a plate that are read, likewise: one more than a plate may have.
const PLATE: usize = sizes::MAX_INPUT + 1;

// The exit status if the text goes to a pipe that nobody reads: what a shell has for a program that the signal of such a pipe, 13, ends.
const UNREAD: u8 = 128 + 13;

// Reads until the buffer is full, the input ends or a read fails, and returns how many bytes are read to the front of the buffer.
fn read_full(input: &mut impl Read, buf: &mut [u8]) -> usize
    ensures { IsPrefixLen result buf.new }
{
    let mut done = 0;
    while done < buf.len() {
        match input.read(&mut buf[done..]) {
            Ok(n) if n > 0 => done += n,
            _ => break,
        }
    }
    done
}

// Reads the front of the book. A file that can't be opened counts as empty. Of one that can't be read to its end, what was read counts.
fn read_book(rt: &impl Files, book: &mut [u8]) -> usize
    requires { length book.old ≡ book_front }
    ensures { IsPrefixLen result book.new }
{
    match fs::open(rt, "book.bin") {
        Ok(mut input) => read_full(&mut input, book),
        Err(_) => 0,
    }
}

// Reads the front of the file with the year. A file that can't be opened or read counts as empty, so its year is 0.
fn read_year(rt: &impl Files, file: &mut [u8]) -> usize
    requires { length file.old ≡ year_front }
    ensures { IsPrefixLen result file.new }
{
    match fs::open(rt, "year.bin") {
        Ok(mut input) => read_full(&mut input, file),
        Err(_) => 0,
    }
}

// Reads the front of the plate.
fn read_plate(rt: &impl Input, plate: &mut [u8]) -> usize
    requires { length plate.old ≡ plate_front }
    ensures { IsPrefixLen result plate.new }
{
    read_full(&mut rt.reader(), plate)
}

// Writes the text of book, file with the year and plate, and returns how many bytes it has. The arrays that the steps need are locals of
// this function.
fn list(
    rt: &(impl Print + Eprint),
    book: &[u8],
    file: &[u8],
    plate: &[u8],
) -> Result<usize, Unwritten>
    ensures { IfOk result (λ n. Listed book.now file.now plate.now n) }
{
    let mut p = [0u8; PACKED_SIZE];
    let mut lengths = [0i16; sizes::MAX_RULES];
    let mut chart = [0u32; sizes::CELLS];
    let mut fits = [0u8; packed_fit::FIT_SIZE];
    let mut tables = [0u16; TABLES_SIZE];
    let mut buf = [0u16; sizes::OUTPUT];
    let due = begin(
        book,
        file,
        plate,
        &mut p,
        &mut lengths,
        &mut chart,
        &mut fits,
        &mut tables,
        &mut buf,
    );
    write_pages(
        rt, book, file, plate, due, &p, &lengths, &fits, &chart, &tables, &mut buf,
    )
}

fn main(rt: HostRuntime) -> ExitCode {
    let mut book = [0u8; BOOK];
    let b = read_book(&rt, &mut book);
    let mut file = [0u8; YEAR];
    let y = read_year(&rt, &mut file);
    let mut plate = [0u8; PLATE];
    let n = read_plate(&rt, &mut plate);
    match list(&rt, &book[..b], &file[..y], &plate[..n]) {
        Err(
            Unwritten {
                kind: ErrorKind::BrokenPipe,
                ..
            },
        ) => ExitCode::from(UNREAD),
        // of another error standard error has been told
        _ => ExitCode::SUCCESS,
    }
}
