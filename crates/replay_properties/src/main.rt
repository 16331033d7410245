// Replays recorded answers of the Rust: the properties. A line for each function: how many answers were compared, and how many differ.
#![tactic(auto)]

use replay_judge::{answer, listing};
use std::io;

// The functions that are asked, each by its place in the tally, behind those of the edits.
#[derive(Clone, Copy, PartialEq, Eq, Debug)]
enum Property {
    GetOrphanVertices = 8,
    GetOrphanHyperedges,
    GetEndpoints,
    GetInclusions,
    FindCutVertices,
    GetNestednessProfile,
    IsKUniform,
}

const NAMES: [(&[u8], usize); 7] = [
    (b"get_orphan_vertices", Property::GetOrphanVertices as usize),
    (
        b"get_orphan_hyperedges",
        Property::GetOrphanHyperedges as usize,
    ),
    (b"get_endpoints", Property::GetEndpoints as usize),
    (b"get_inclusions", Property::GetInclusions as usize),
    (b"find_cut_vertices", Property::FindCutVertices as usize),
    (
        b"get_nestedness_profile",
        Property::GetNestednessProfile as usize,
    ),
    (b"is_k_uniform", Property::IsKUniform as usize),
];

// What a record asks, by its first byte: something of the whole table, and of a count of members.
#[derive(Clone, Copy, PartialEq, Eq, Debug)]
enum Kind {
    OfTable,
    OfCount,
}

impl Kind {
    fn of(byte: u32) -> Option<Self> {
        match byte {
            48 => Some(Kind::OfTable),
            49 => Some(Kind::OfCount),
            _ => None,
        }
    }
}

fn of_vertices(s: &[u8], at: usize, t: &[u32], out: &mut [u32], tally: &mut [u32]) -> usize {
    let a = orphans::get_orphan_vertices(t, out);
    let b = listing(s, at, a, out, Property::GetOrphanVertices as usize, tally);
    let c = properties::get_orphan_hyperedges(t, out);
    let d = listing(s, b, c, out, Property::GetOrphanHyperedges as usize, tally);
    let e = orphans::get_endpoints(t, out);
    listing(s, d, e, out, Property::GetEndpoints as usize, tally)
}

fn of_sets(s: &[u8], at: usize, t: &[u32], out: &mut [u32], tally: &mut [u32]) -> usize {
    let a = inclusions::get_inclusions(t, out);
    let b = listing(s, at, a, out, Property::GetInclusions as usize, tally);
    let c = properties::find_cut_vertices(t, out);
    let d = listing(s, b, c, out, Property::FindCutVertices as usize, tally);
    let e = nestedness::get_nestedness_profile(t, out);
    listing(s, d, e, out, Property::GetNestednessProfile as usize, tally)
}

fn whole(s: &[u8], at: usize, t: &[u32], out: &mut [u32], tally: &mut [u32]) -> usize {
    let b = of_vertices(s, at, t, out, tally);
    of_sets(s, b, t, out, tally)
}

fn uniform(s: &[u8], at: usize, t: &[u32], tally: &mut [u32]) -> usize {
    let k = replay_reading::word(s, at);
    let a = properties::is_k_uniform(t, k.value as usize);
    answer(s, k.at, a, Property::IsKUniform as usize, tally)
}

// The record of a kind that is the program's own, whose rest stands at `at`, and the place after it; none for another kind.
fn own(
    s: &[u8],
    kind: u32,
    at: usize,
    t: &[u32],
    out: &mut [u32],
    tally: &mut [u32],
) -> Option<usize> {
    let after = match Kind::of(kind)? {
        Kind::OfTable => whole(s, at, t, out, tally),
        Kind::OfCount => uniform(s, at, t, tally),
    };
    Some(after)
}

fn main(rt: HostRuntime) -> io::Result<()> {
    let mut out = [0u32; 73728];
    replay_tables::replay(&rt, &NAMES, |s, kind, at, t, tally| {
        own(s, kind, at, t, &mut out, tally)
    })
}
