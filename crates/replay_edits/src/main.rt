// Replays recorded answers of the Rust: the edits, and whether a table is empty. A line for each function: how many answers were compared,
// and how many differ.
#![tactic(auto)]

use hypergraph::is_empty;
use std::io;

// The functions that are asked, each by its place in the tally, behind those of the edits.
#[derive(Clone, Copy, PartialEq, Eq, Debug)]
enum Asked {
    IsEmpty = 8,
}

const NAMES: [(&[u8], usize); 1] = [(b"is_empty", Asked::IsEmpty as usize)];

// What a record asks, by its first byte: something of the whole table.
#[derive(Clone, Copy, PartialEq, Eq, Debug)]
enum Kind {
    OfTable,
}

impl Kind {
    fn of(byte: u32) -> Option<Self> {
        match byte {
            8 => Some(Kind::OfTable),
            _ => None,
        }
    }
}

// The record of a kind that is the program's own, whose rest stands at `at`, and the place after it; none for another kind.
fn own(s: &[u8], kind: u32, at: usize, t: &[u32], tally: &mut [u32]) -> Option<usize> {
    let after = match Kind::of(kind)? {
        Kind::OfTable => replay_judge::answer(s, at, is_empty(t), Asked::IsEmpty as usize, tally),
    };
    Some(after)
}

fn main(rt: HostRuntime) -> io::Result<()> {
    replay_tables::replay(&rt, &NAMES, own)
}
