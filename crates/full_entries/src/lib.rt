// The entries of adjacent vertices with their hyperedges, written.
#![tactic(auto)]

ghost use Rattle.std.specs.Prelude.{◌≡◌, ℕ, ◌+◌, ◌<◌, ◌≤◌, length, get_or};
ghost use Rattle.layout.specs.Content.{live_vertices, position};
ghost use Rattle.layout.specs.Layout.{limit, vertex_limit, vertex_count, hyperedge_count, read};
ghost use Rattle.layout.specs.Inner.{Formed};
ghost use Rattle.lookups.specs.Lookups.{connecting};
ghost use Rattle.lookups.specs.State.{listing_most, listing_ahead, nothing, tallying, words_for, head_for, start, heading, Beyond, Headed, offset, placing, Filling};

use layout::VertexIndex;
use lookups::{Direction, ends_at};

// The words of a vertex with so many hyperedges.
pub fn words_for(count: usize) -> usize
    requires { count ≤ listing_most }
    ensures { result ≡ words_for count }
{
    if count == 0 {
        return 0;
    }
    count + 2
}

// Writes vertex and count at c, where there are hyperedges to follow; where they begin.
fn write_head(y: u32, count: usize, c: usize, out: &mut [u32]) -> usize
    requires count_le_listing_most { count ≤ listing_most }
    requires count_in_bounds { c + words_for count ≤ length out.old }
    ensures value { result ≡ c + head_for count }
    ensures out_after { out.new ≡ heading c y count out.old }
{
    if count == 0 {
        return c;
    }
    out[c] = y;
    out[c + 1] = count as u32;
    c + 2
}

// Writes vertex and count of each of the n live vertices where its words start; where its hyperedges begin.
pub fn write_heads(t: &[u32], n: usize, counts: &[usize; 256], out: &mut [u32]) -> [usize; 256]
    requires formed { Formed limit t.now }
    requires n_value { (n ≡ vertex_count t.now) × ((length counts.now ≡ vertex_limit) × (((k : ℕ) → k < n → get_or counts.now k 0 ≤ listing_most) × (start counts.now n ≤ length out.old))) }
    ensures { Headed (live_vertices (read limit t.now)) counts.now out.old n result out.new }
{
    let mut nexts = [0usize; 256];
    let mut c = 0;
    for k in 0..n {
        nexts[k] = write_head(layout::vertex_number(t, k), counts[k], c, out);
        c += words_for(counts[k]);
    }
    nexts
}

// Writes e at the next word of vertex x, where it is live.
fn put(t: &[u32], x: u32, e: u32, nexts: &mut [usize; 256], out: &mut [u32])
    requires formed { Formed limit t.now }
    requires by_index { (k : ℕ) → position x (live_vertices (read limit t.now)) ≡ Some k → get_or nexts.old k 0 < length out.old }
    ensures nexts_after { nexts.new ≡ tallying (position x (live_vertices (read limit t.now))) nexts.old }
    ensures out_after { out.new ≡ placing (position x (live_vertices (read limit t.now))) nexts.old e out.old }
{
    if let Some(k) = find::find_vertex(t, VertexIndex(x)) {
        let p = nexts[k];
        out[p] = e;
        nexts[k] = p + 1;
    }
}

// Writes the number of record j for each of its places at which a step leads from v, or to v, at the next word of the vertex at the other end.
fn fill_record(
    t: &[u32],
    j: usize,
    v: u32,
    dir: Direction,
    nexts: &mut [usize; 256],
    out: &mut [u32],
)
    requires formed { Formed limit t.now }
    requires j_bound { (j < hyperedge_count t.now) × Filling (live_vertices (read limit t.now)) (connecting dir (read limit t.now) v) (listing_ahead dir (read limit t.now) v j) nexts.old out.old }
    ensures filling { Filling (live_vertices (read limit t.now)) (connecting dir (read limit t.now) v) (listing_ahead dir (read limit t.now) v (j + 1)) nexts.new out.new }
    ensures beyond { Beyond (offset (live_vertices (read limit t.now)) (connecting dir (read limit t.now) v) (length (live_vertices (read limit t.now)))) out.old out.new }
{
    let ms = layout::members_formed(t, j);
    let e = layout::hyperedge_number(t, j);
    for i in 0..ms.len().saturating_sub(1) {
        let ends = ends_at(ms, i, dir);
        if ends.near == v {
            put(t, ends.far, e, nexts, out);
        }
    }
}

pub fn fill(t: &[u32], v: u32, dir: Direction, nexts: &mut [usize; 256], out: &mut [u32])
    requires formed { Formed limit t.now }
    requires filling { Filling (live_vertices (read limit t.now)) (connecting dir (read limit t.now) v) (connecting dir (read limit t.now) v) nexts.old out.old }
    ensures filling_2 { Filling (live_vertices (read limit t.now)) (connecting dir (read limit t.now) v) nothing nexts.new out.new }
    ensures beyond { Beyond (offset (live_vertices (read limit t.now)) (connecting dir (read limit t.now) v) (length (live_vertices (read limit t.now)))) out.old out.new }
{
    let m = layout::hyperedge_count(t);
    for j in 0..m {
        fill_record(t, j, v, dir, nexts, out);
    }
}
