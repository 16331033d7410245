// Recorded answers, replayed: what the crates of this layer share. Records are read from bytes, the calls that they name are made, and what
// they answer is held against what is recorded. `compare/README.md` has the form of the records.
#![tactic(auto)]

pub mod tally;

// A number and the place after it.
#[derive(Clone, Copy)]
pub struct Value {
    pub value: u32,
    pub at: usize,
}

#[derive(Clone, Copy)]
pub struct LongValue {
    pub value: u64,
    pub at: usize,
}

// How many words a list has, and the place after it.
#[derive(Clone, Copy)]
pub struct Extent {
    pub count: usize,
    pub at: usize,
}

// A recorded answer, and the place after it.
#[derive(Clone, Copy)]
pub struct Recorded {
    pub number: u32,
    pub detail: u32,
    pub at: usize,
}

// Whether what was recorded is what is there, and the place after it.
#[derive(Clone, Copy)]
pub struct Held {
    pub same: bool,
    pub at: usize,
}

// How many members of the list at hand are to come, its sum so far, and the sum of the lists before it.
#[derive(Clone, Copy)]
pub struct Rows {
    pub left: u32,
    pub row: u64,
    pub total: u64,
}

// What is recorded of a path, and the vertices that were asked for.
#[derive(Clone, Copy)]
pub struct Ends {
    pub from: u32,
    pub to: u32,
    pub low: u32,
    pub high: u32,
    pub entries: u32,
}
