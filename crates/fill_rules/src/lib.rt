// A set of rules, and such a set that is listed.
#![tactic(auto)]

// A set of rules: a bit of the first word for each rule below 64, and of the second for the others.
#[derive(Clone, Copy, PartialEq, Eq)]
pub struct Rules {
    pub low: u64,
    pub high: u64,
}

// A set that is listed, and how many members the list has.
#[derive(Clone, Copy)]
pub struct Listed {
    pub set: Rules,
    pub count: usize,
}
