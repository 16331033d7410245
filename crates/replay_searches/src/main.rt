// Replays recorded answers of the Rust: traversal, structure, paths and walks. A line for each function: how many answers were compared,
// and how many differ.
#![tactic(auto)]

use layout::VertexIndex;
use replay_judge::{answer, listing};
use std::io;

// The functions that are asked, each by its place in the tally, behind those of the edits.
#[derive(Clone, Copy, PartialEq, Eq, Debug)]
enum Search {
    IsConnected = 8,
    IsAcyclic,
    TopologicalSort,
    StronglyConnectedComponents,
    ConnectedComponents,
    GetTransitiveClosure,
    GetBfs,
    GetDfs,
    GetDijkstraFrom,
    IsReachable,
    GetDijkstraConnectionsWithCost,
    RandomWalk,
}

const NAMES: [(&[u8], usize); 12] = [
    (b"is_connected", Search::IsConnected as usize),
    (b"is_acyclic", Search::IsAcyclic as usize),
    (b"topological_sort", Search::TopologicalSort as usize),
    (
        b"strongly_connected_components",
        Search::StronglyConnectedComponents as usize,
    ),
    (
        b"connected_components",
        Search::ConnectedComponents as usize,
    ),
    (
        b"get_transitive_closure",
        Search::GetTransitiveClosure as usize,
    ),
    (b"get_bfs", Search::GetBfs as usize),
    (b"get_dfs", Search::GetDfs as usize),
    (b"get_dijkstra_from", Search::GetDijkstraFrom as usize),
    (b"is_reachable", Search::IsReachable as usize),
    (
        b"get_dijkstra_connections_with_cost",
        Search::GetDijkstraConnectionsWithCost as usize,
    ),
    (b"random_walk", Search::RandomWalk as usize),
];

// What a record asks, by its first byte: something of the whole table, of a vertex, of two vertices, of a walk.
#[derive(Clone, Copy, PartialEq, Eq, Debug)]
enum Kind {
    OfTable,
    OfVertex,
    OfPair,
    OfWalk,
}

impl Kind {
    fn of(byte: u32) -> Option<Self> {
        match byte {
            32 => Some(Kind::OfTable),
            33 => Some(Kind::OfVertex),
            34 => Some(Kind::OfPair),
            35 => Some(Kind::OfWalk),
            _ => None,
        }
    }
}

fn of_steps(s: &[u8], at: usize, t: &[u32], out: &mut [u32], tally: &mut [u32]) -> usize {
    let b = answer(
        s,
        at,
        component_listings::is_connected(t),
        Search::IsConnected as usize,
        tally,
    );
    let c = answer(
        s,
        b,
        topological_sort::is_acyclic(t),
        Search::IsAcyclic as usize,
        tally,
    );
    let d = topological_sort::topological_sort(t, out);
    listing(s, c, d, out, Search::TopologicalSort as usize, tally)
}

fn of_components(s: &[u8], at: usize, t: &[u32], out: &mut [u32], tally: &mut [u32]) -> usize {
    let a = component_listings::strongly_connected_components(t, out);
    let b = listing(
        s,
        at,
        a,
        out,
        Search::StronglyConnectedComponents as usize,
        tally,
    );
    let c = component_listings::connected_components(t, out);
    let d = listing(s, b, c, out, Search::ConnectedComponents as usize, tally);
    let e = component_listings::get_transitive_closure(t, out);
    listing(s, d, e, out, Search::GetTransitiveClosure as usize, tally)
}

fn whole(s: &[u8], at: usize, t: &[u32], out: &mut [u32], tally: &mut [u32]) -> usize {
    let b = of_steps(s, at, t, out, tally);
    of_components(s, b, t, out, tally)
}

fn of_vertex(s: &[u8], at: usize, t: &[u32], out: &mut [u32], tally: &mut [u32]) -> usize {
    let v = replay_reading::word(s, at);
    let a = traversal::get_bfs(t, VertexIndex(v.value), out);
    let b = listing(s, v.at, a, out, Search::GetBfs as usize, tally);
    let c = traversal::get_dfs(t, VertexIndex(v.value), out);
    let d = listing(s, b, c, out, Search::GetDfs as usize, tally);
    let e = dijkstra_from::get_dijkstra_from(t, VertexIndex(v.value), out);
    listing(s, d, e, out, Search::GetDijkstraFrom as usize, tally)
}

fn of_pair(s: &[u8], at: usize, t: &[u32], out: &mut [u32], tally: &mut [u32]) -> usize {
    let x = replay_reading::word(s, at);
    let y = replay_reading::word(s, x.at);
    let from = VertexIndex(x.value);
    let to = VertexIndex(y.value);
    let b = answer(
        s,
        y.at,
        traversal::is_reachable(t, from, to),
        Search::IsReachable as usize,
        tally,
    );
    let c = dijkstra_connections::get_dijkstra_connections_with_cost(t, from, to, out);
    replay_rows::answer(
        s,
        b,
        c,
        x.value,
        y.value,
        out,
        Search::GetDijkstraConnectionsWithCost as usize,
        tally,
    )
}

fn walked(s: &[u8], at: usize, t: &[u32], out: &mut [u32], tally: &mut [u32]) -> usize {
    let v = replay_reading::word(s, at);
    let steps = replay_reading::word(s, v.at);
    let seed = replay_reading::eight(s, steps.at);
    let a = random_walk::random_walk(
        t,
        VertexIndex(v.value),
        steps.value as usize,
        seed.value,
        out,
    );
    listing(s, seed.at, a, out, Search::RandomWalk as usize, tally)
}

// The record of a kind that is the program's own, whose rest stands at `at`, and the place after it; none for another kind.
fn own(
    s: &[u8],
    kind: u32,
    at: usize,
    t: &[u32],
    out: &mut [u32],
    tally: &mut [u32],
) -> Option<usize> {
    let after = match Kind::of(kind)? {
        Kind::OfTable => whole(s, at, t, out, tally),
        Kind::OfVertex => of_vertex(s, at, t, out, tally),
        Kind::OfPair => of_pair(s, at, t, out, tally),
        Kind::OfWalk => walked(s, at, t, out, tally),
    };
    Some(after)
}

fn main(rt: HostRuntime) -> io::Result<()> {
    let mut out = [0u32; 131072];
    replay_tables::replay(&rt, &NAMES, |s, kind, at, t, tally| {
        own(s, kind, at, t, &mut out, tally)
    })
}
