// Which vertices stand together in a list, as a matrix of marks.
#![tactic(auto)]

ghost use Rattle.std.specs.Prelude.{◌≡◌, map, ◌+◌, ◌<◌, length, take};
ghost use Rattle.layout.specs.Content.{live_vertices};
ghost use Rattle.layout.specs.Layout.{limit, vertex_limit, vertex_count, hyperedge_count, members_at, read};
ghost use Rattle.layout.specs.Inner.{Formed};
ghost use Rattle.steps.specs.Inner.{Holds};
ghost use Rattle.cut.specs.Cut.{record_of};
ghost use Rattle.cut.specs.State.{together_between, Gathered, Places, with_row, with_pairs};

use layout::VertexIndex;

// The record of a live vertex.
fn record_of(t: &[u32], x: u32) -> usize
    requires { Formed limit t.now }
    ensures { result ≡ record_of (live_vertices (read limit t.now)) x }
{
    find::find_vertex(t, VertexIndex(x)).unwrap_or(0)
}

// The records of the members of hyperedge record j, each found once.
fn find_places(t: &[u32], j: usize, places: &mut [u32; layout::MEMBER_LIMIT]) -> usize
    requires formed { Formed limit t.now }
    requires j_bound { (j < hyperedge_count t.now) × (length places.old ≡ limit) }
    ensures { Places (vertex_count t.now) result places.new (map (record_of (live_vertices (read limit t.now))) (members_at limit t.now j)) }
{
    let ms = layout::members_formed(t, j);
    for i in 0..ms.len() {
        places[i] = record_of(t, ms[i]) as u32;
    }
    ms.len()
}

// Marks record a together with each of the first c places.
fn mark_row(places: &[u32; layout::MEMBER_LIMIT], c: usize, a: usize, m: &mut [u8; 65536])
    requires { (a < vertex_limit) × Places vertex_limit c places.now (take c places.now) }
    ensures { m.new ≡ with_row a (take c places.now) m.old }
{
    for i in 0..c {
        m[a * layout::VERTEX_LIMIT + places[i] as usize] = 1;
    }
}

// Marks each of the first c places together with each.
fn mark_pairs(places: &[u32; layout::MEMBER_LIMIT], c: usize, m: &mut [u8; 65536])
    requires { Places vertex_limit c places.now (take c places.now) }
    ensures { m.new ≡ with_pairs (take c places.now) (take c places.now) m.old }
{
    for i in 0..c {
        mark_row(places, c, places[i] as usize, m);
    }
}

// Marks the pairs of members of hyperedge record j.
fn gather_record(t: &[u32], j: usize, m: &mut [u8; 65536])
    requires formed { Formed limit t.now }
    requires j_bound { (j < hyperedge_count t.now) × Gathered t.now j m.old }
    ensures { Gathered t.now (j + 1) m.new }
{
    let mut places = [0u32; layout::MEMBER_LIMIT];
    let c = find_places(t, j, &mut places);
    mark_pairs(&places, c, m);
}

// Marks the pairs of members of every hyperedge.
fn gather(t: &[u32], m: &mut [u8; 65536])
    requires formed { Formed limit t.now }
    requires gathered { Gathered t.now 0 m.old }
    ensures { Gathered t.now (hyperedge_count t.now) m.new }
{
    let k = layout::hyperedge_count(t);
    for j in 0..k {
        gather_record(t, j, m);
    }
}

// The matrix of co-membership.
pub fn together_matrix(t: &[u32], m: &mut [u8; 65536])
    requires { Formed limit t.now }
    ensures { Holds (together_between (read limit t.now)) (vertex_count t.now) m.new }
{
    let blank = [0u8; 65536];
    *m = blank;
    gather(t, m);
}
