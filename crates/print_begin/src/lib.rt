// The first step of the listing program: from the bytes of the book, of the file with the year and of the plate to the first line that is
// due.
#![tactic(auto)]

pub mod begin;
pub mod year;

// What is due: the line that is printed next.
#[derive(Clone, Copy)]
pub enum Due {
    // `REFUSED` and a number, the only line; any byte may be that number, since `print_page::fill_page` takes each (`DueSized`)
    Refusal(usize),
    // `NO READING`, the only line
    NoReading,
    // the line of the derivation that is in the buffer
    Reading {
        start: usize,
        rules: usize,
        n: usize,
        i: usize,
        nodes: usize,
    },
    // `READINGS` and their number
    Total(usize),
    // `READINGS more`
    More,
    // all lines are printed
    Nothing,
}
