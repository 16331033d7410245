// Replays recorded answers of the Rust: the lookups. A line for each function: how many answers were compared, and how many differ.
#![tactic(auto)]

use layout::VertexIndex;
use replay_judge::{answer, listing};
use std::io;

// The functions that are asked, each by its place in the tally, behind those of the edits.
#[derive(Clone, Copy, PartialEq, Eq, Debug)]
enum Lookup {
    GetAdjacentVerticesFrom = 8,
    GetAdjacentVerticesTo,
    GetFullAdjacentVerticesFrom,
    GetFullAdjacentVerticesTo,
    GetVertexDegreeIn,
    GetVertexDegreeOut,
    GetFullVertexHyperedges,
    GetVertexNeighborhood,
    GetHyperedgesConnecting,
    FindHyperedgesByWeight,
    ContainsVertex,
    GetVertexIndex,
    GetHyperedgesIntersections,
}

const NAMES: [(&[u8], usize); 13] = [
    (
        b"get_adjacent_vertices_from",
        Lookup::GetAdjacentVerticesFrom as usize,
    ),
    (
        b"get_adjacent_vertices_to",
        Lookup::GetAdjacentVerticesTo as usize,
    ),
    (
        b"get_full_adjacent_vertices_from",
        Lookup::GetFullAdjacentVerticesFrom as usize,
    ),
    (
        b"get_full_adjacent_vertices_to",
        Lookup::GetFullAdjacentVerticesTo as usize,
    ),
    (b"get_vertex_degree_in", Lookup::GetVertexDegreeIn as usize),
    (
        b"get_vertex_degree_out",
        Lookup::GetVertexDegreeOut as usize,
    ),
    (
        b"get_full_vertex_hyperedges",
        Lookup::GetFullVertexHyperedges as usize,
    ),
    (
        b"get_vertex_neighborhood",
        Lookup::GetVertexNeighborhood as usize,
    ),
    (
        b"get_hyperedges_connecting",
        Lookup::GetHyperedgesConnecting as usize,
    ),
    (
        b"find_hyperedges_by_weight",
        Lookup::FindHyperedgesByWeight as usize,
    ),
    (b"contains_vertex", Lookup::ContainsVertex as usize),
    (b"get_vertex_index", Lookup::GetVertexIndex as usize),
    (
        b"get_hyperedges_intersections",
        Lookup::GetHyperedgesIntersections as usize,
    ),
];

// What a record asks, by its first byte: something of a vertex, of two vertices, of a weight, of a list of hyperedges.
#[derive(Clone, Copy, PartialEq, Eq, Debug)]
enum Kind {
    OfVertex,
    OfPair,
    OfWeight,
    OfHyperedges,
}

impl Kind {
    fn of(byte: u32) -> Option<Self> {
        match byte {
            16 => Some(Kind::OfVertex),
            17 => Some(Kind::OfPair),
            18 => Some(Kind::OfWeight),
            19 => Some(Kind::OfHyperedges),
            _ => None,
        }
    }
}

fn adjacent(
    s: &[u8],
    at: usize,
    v: VertexIndex,
    t: &[u32],
    out: &mut [u32],
    tally: &mut [u32],
) -> usize {
    let a = adjacent::get_adjacent_vertices_from(t, v, out);
    let b = listing(
        s,
        at,
        a,
        out,
        Lookup::GetAdjacentVerticesFrom as usize,
        tally,
    );
    let c = adjacent::get_adjacent_vertices_to(t, v, out);
    listing(s, b, c, out, Lookup::GetAdjacentVerticesTo as usize, tally)
}

fn full_adjacent(
    s: &[u8],
    at: usize,
    v: VertexIndex,
    t: &[u32],
    out: &mut [u32],
    tally: &mut [u32],
) -> usize {
    let a = full_adjacent::get_full_adjacent_vertices_from(t, v, out);
    let b = listing(
        s,
        at,
        a,
        out,
        Lookup::GetFullAdjacentVerticesFrom as usize,
        tally,
    );
    let c = full_adjacent::get_full_adjacent_vertices_to(t, v, out);
    listing(
        s,
        b,
        c,
        out,
        Lookup::GetFullAdjacentVerticesTo as usize,
        tally,
    )
}

fn around(
    s: &[u8],
    at: usize,
    v: VertexIndex,
    t: &[u32],
    out: &mut [u32],
    tally: &mut [u32],
) -> usize {
    let b = answer(
        s,
        at,
        degrees::get_vertex_degree_in(t, v),
        Lookup::GetVertexDegreeIn as usize,
        tally,
    );
    let d = answer(
        s,
        b,
        degrees::get_vertex_degree_out(t, v),
        Lookup::GetVertexDegreeOut as usize,
        tally,
    );
    let e = hyperedge_listings::get_full_vertex_hyperedges(t, v, out);
    let f = replay_rows::listing(
        s,
        d,
        e,
        out,
        Lookup::GetFullVertexHyperedges as usize,
        tally,
    );
    let g = adjacent::get_vertex_neighborhood(t, v, out);
    listing(s, f, g, out, Lookup::GetVertexNeighborhood as usize, tally)
}

fn of_vertex(s: &[u8], at: usize, t: &[u32], out: &mut [u32], tally: &mut [u32]) -> usize {
    let v = replay_reading::word(s, at);
    let b = adjacent(s, v.at, VertexIndex(v.value), t, out, tally);
    let c = full_adjacent(s, b, VertexIndex(v.value), t, out, tally);
    around(s, c, VertexIndex(v.value), t, out, tally)
}

fn of_pair(s: &[u8], at: usize, t: &[u32], out: &mut [u32], tally: &mut [u32]) -> usize {
    let x = replay_reading::word(s, at);
    let y = replay_reading::word(s, x.at);
    let a = hyperedge_listings::get_hyperedges_connecting(
        t,
        VertexIndex(x.value),
        VertexIndex(y.value),
        out,
    );
    listing(
        s,
        y.at,
        a,
        out,
        Lookup::GetHyperedgesConnecting as usize,
        tally,
    )
}

fn of_weight(s: &[u8], at: usize, t: &[u32], out: &mut [u32], tally: &mut [u32]) -> usize {
    let w = replay_reading::word(s, at);
    let a = hyperedge_listings::find_hyperedges_by_weight(t, w.value, out);
    let b = listing(
        s,
        w.at,
        a,
        out,
        Lookup::FindHyperedgesByWeight as usize,
        tally,
    );
    let d = answer(
        s,
        b,
        vertex_weights::contains_vertex(t, w.value),
        Lookup::ContainsVertex as usize,
        tally,
    );
    let e = vertex_weights::get_vertex_index(t, w.value, out);
    listing(s, d, e, out, Lookup::GetVertexIndex as usize, tally)
}

fn of_hyperedges(s: &[u8], at: usize, t: &[u32], out: &mut [u32], tally: &mut [u32]) -> usize {
    let mut hyperedges = [0u32; 32];
    let l = replay_reading::list(s, at, &mut hyperedges);
    let n = l.count;
    let a = intersections::get_hyperedges_intersections(t, &hyperedges[..n], out);
    listing(
        s,
        l.at,
        a,
        out,
        Lookup::GetHyperedgesIntersections as usize,
        tally,
    )
}

// The record of a kind that is the program's own, whose rest stands at `at`, and the place after it; none for another kind.
fn own(
    s: &[u8],
    kind: u32,
    at: usize,
    t: &[u32],
    out: &mut [u32],
    tally: &mut [u32],
) -> Option<usize> {
    let after = match Kind::of(kind)? {
        Kind::OfVertex => of_vertex(s, at, t, out, tally),
        Kind::OfPair => of_pair(s, at, t, out, tally),
        Kind::OfWeight => of_weight(s, at, t, out, tally),
        Kind::OfHyperedges => of_hyperedges(s, at, t, out, tally),
    };
    Some(after)
}

fn main(rt: HostRuntime) -> io::Result<()> {
    let mut out = [0u32; 8192];
    replay_tables::replay(&rt, &NAMES, |s, kind, at, t, tally| {
        own(s, kind, at, t, &mut out, tally)
    })
}
