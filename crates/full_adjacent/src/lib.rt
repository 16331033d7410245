// Adjacent vertices, each with the hyperedges that step there.
#![tactic(auto)]

ghost use Rattle.std.specs.Prelude.{◌≡◌, ℕ, ◌+◌, ◌<◌, ◌≤◌, length, get_or};
ghost use Rattle.layout.specs.Content.{live_vertices, position};
ghost use Rattle.layout.specs.Layout.{limit, vertex_limit, vertex_count, hyperedge_count, read};
ghost use Rattle.layout.specs.Inner.{Formed};
ghost use Rattle.layout.specs.Answers.{result_of, listed, on_formed};
ghost use Rattle.lookups.specs.declared.Direction.TheVariants.{From, To};
ghost use Rattle.lookups.specs.Lookups.{connecting, full_adjacent};
ghost use Rattle.lookups.specs.State.{listing_most, listing_ahead, nothing, tallying, Tallied, start};
ghost use Rattle.lookups.specs.Results.{full_adjacent_result};

use full_entries::{fill, words_for, write_heads};
use layout::{Answer, Refusal, VertexIndex};
use lookups::{Direction, ends_at};

// One place more of vertex x, where it is live.
fn tally(t: &[u32], x: u32, counts: &mut [usize; 256])
    requires formed { Formed limit t.now }
    requires by_index { (k : ℕ) → k < vertex_count t.now → get_or counts.old k 0 ≤ listing_most }
    ensures { counts.new ≡ tallying (position x (live_vertices (read limit t.now))) counts.old }
{
    if let Some(k) = find::find_vertex(t, VertexIndex(x)) {
        counts[k] += 1;
    }
}

// Counts the places of record j at which a step leads from v, or to v, by the vertex at the other end.
fn tally_record(t: &[u32], j: usize, v: u32, dir: Direction, counts: &mut [usize; 256])
    requires formed { Formed limit t.now }
    requires j_bound { (j < hyperedge_count t.now) × Tallied (live_vertices (read limit t.now)) (connecting dir (read limit t.now) v) (listing_ahead dir (read limit t.now) v j) counts.old }
    ensures { Tallied (live_vertices (read limit t.now)) (connecting dir (read limit t.now) v) (listing_ahead dir (read limit t.now) v (j + 1)) counts.new }
{
    let ms = layout::members_formed(t, j);
    for i in 0..ms.len().saturating_sub(1) {
        let ends = ends_at(ms, i, dir);
        if ends.near == v {
            tally(t, ends.far, counts);
        }
    }
}

fn tally_places(t: &[u32], v: u32, dir: Direction) -> [usize; 256]
    requires { Formed limit t.now }
    ensures { Tallied (live_vertices (read limit t.now)) (connecting dir (read limit t.now) v) nothing result }
{
    let m = layout::hyperedge_count(t);
    let mut counts = [0usize; 256];
    for j in 0..m {
        tally_record(t, j, v, dir, &mut counts);
    }
    counts
}

// The words of the first n vertices.
fn words_needed(counts: &[usize; 256], n: usize) -> usize
    requires n_le_vertex_limit { n ≤ vertex_limit }
    requires counts_len { (length counts.now ≡ vertex_limit) × ((k : ℕ) → k < n → get_or counts.now k 0 ≤ listing_most) }
    ensures { result ≡ start counts.now n }
{
    let mut c = 0;
    for k in 0..n {
        c += words_for(counts[k]);
    }
    c
}

fn list_full(t: &[u32], v: u32, dir: Direction, out: &mut [u32]) -> Answer
    requires { Formed limit t.now }
    ensures { result_of result out.new ≡ listed (full_adjacent dir v (read limit t.now)) out.old }
{
    let n = layout::vertex_count(t);
    let counts = tally_places(t, v, dir);
    let c = words_needed(&counts, n);
    if out.len() < c {
        return Err(Refusal::NoRoom(c));
    }
    let mut nexts = write_heads(t, n, &counts, out);
    fill(t, v, dir, &mut nexts, out);
    Ok(c)
}

// The adjacent vertices with their hyperedges, where the vertex is live.
fn list_full_adjacent(t: &[u32], v: VertexIndex, dir: Direction, out: &mut [u32]) -> Answer
    requires { Formed limit t.now }
    ensures { result_of result out.new ≡ full_adjacent_result dir v.0 out.old (read limit t.now) }
{
    find::find_vertex(t, v).ok_or(Refusal::VertexNotLive(v))?;
    list_full(t, v.0, dir, out)
}

// The vertices that a step from the vertex leads to, each with the hyperedges that step there.
pub fn get_full_adjacent_vertices_from(t: &[u32], v: VertexIndex, out: &mut [u32]) -> Answer
    ensures { result_of result out.new ≡ on_formed t.now out.old (full_adjacent_result From v.0 out.old) }
{
    if !well_formed::well_formed(t) {
        return Err(Refusal::NotWellFormed);
    }
    list_full_adjacent(t, v, Direction::From, out)
}

// The vertices from which a step leads to the vertex, each with the hyperedges that step so.
pub fn get_full_adjacent_vertices_to(t: &[u32], v: VertexIndex, out: &mut [u32]) -> Answer
    ensures { result_of result out.new ≡ on_formed t.now out.old (full_adjacent_result To v.0 out.old) }
{
    if !well_formed::well_formed(t) {
        return Err(Refusal::NotWellFormed);
    }
    list_full_adjacent(t, v, Direction::To, out)
}
