// Vertices and hyperedges searched by number.
#![tactic(auto)]

ghost use Rattle.std.specs.Prelude.{◌≡◌, ◌+◌, ◌*◌, ◌<◌, ◌≤◌, length};
ghost use Rattle.lists.specs.Lists.{Ascending};
ghost use Rattle.layout.specs.Content.{live_vertices, live_hyperedges, position};
ghost use Rattle.layout.specs.Layout.{limit, read};
ghost use Rattle.layout.specs.Inner.{column, Formed, first_missing};

use layout::{
    HYPEREDGES_AT, HyperedgeIndex, RECORD_SIZE, VERTEX_SIZE, VERTICES_AT, VertexIndex,
    hyperedge_count, vertex_count, wide,
};

// Where x stands among the n ascending words at base, base + step, ..
pub fn find_number(t: &[u32], base: usize, step: usize, n: usize, x: u32) -> Option<usize>
    requires step_in_bounds { base + n * step ≤ length t.now }
    requires step_nonzero { 0 < step }
    requires ascending { Ascending (column t.now base step n) }
    ensures { result ≡ position x (column t.now base step n) }
{
    let mut lo = 0;
    let mut hi = n;
    // It counts no index: each turn halves what is left between lo and hi.
    while lo < hi {
        let mid = lo + (hi - lo) / 2;
        let y = t[base + mid * step];
        if y == x {
            return Some(mid);
        }
        if y < x {
            lo = mid + 1;
        } else {
            hi = mid;
        }
    }
    None
}

// Where the vertex stands among the live ones. Where as many are live as numbers were given, its number is its place.
pub fn find_vertex(t: &[u32], v: VertexIndex) -> Option<usize>
    requires { Formed limit t.now }
    ensures { result ≡ position v.0 (live_vertices (read limit t.now)) }
{
    let n = vertex_count(t);
    let x = wide(v.0);
    if wide(t[0]) != n {
        return find_number(t, VERTICES_AT, VERTEX_SIZE, n, v.0);
    }
    if x < n {
        return Some(x);
    }
    None
}

// Where the hyperedge stands among the live ones.
pub fn find_hyperedge(t: &[u32], e: HyperedgeIndex) -> Option<usize>
    requires { Formed limit t.now }
    ensures { result ≡ position e.0 (live_hyperedges (read limit t.now)) }
{
    let m = hyperedge_count(t);
    find_number(t, HYPEREDGES_AT, RECORD_SIZE, m, e.0)
}

// The place of the first of the list that is no live vertex.
pub fn first_missing_vertex(t: &[u32], list: &[u32]) -> Option<usize>
    requires { Formed limit t.now }
    ensures { result ≡ first_missing (live_vertices (read limit t.now)) list.now }
{
    list.iter()
        .position(|&x| find_vertex(t, VertexIndex(x)).is_none())
}

// The place of the first of the list that is no live hyperedge.
pub fn first_missing_hyperedge(t: &[u32], list: &[u32]) -> Option<usize>
    requires { Formed limit t.now }
    ensures { result ≡ first_missing (live_hyperedges (read limit t.now)) list.now }
{
    list.iter()
        .position(|&x| find_hyperedge(t, HyperedgeIndex(x)).is_none())
}
