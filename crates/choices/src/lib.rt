// The hyperedge that each step takes.
#![tactic(auto)]

ghost use Rattle.std.specs.Prelude.{◌≡◌, true, ◌<◌, ◌+◌, ◌*◌, length, get_or, set};
ghost use Rattle.layout.specs.Content.{live_vertices, is_live, position};
ghost use Rattle.layout.specs.Layout.{limit, vertex_limit, hyperedge_count, read};
ghost use Rattle.layout.specs.Inner.{Formed};
ghost use Rattle.steps.specs.Inner.{cell};
ghost use Rattle.distance.specs.Cost.{Listed};
ghost use Rattle.paths.specs.Paths.{lighter};
ghost use Rattle.lists.specs.Lists.{facing, word_at};
ghost use Rattle.paths.specs.Choices.{Weights, Choosing, Chosen};

use layout::VertexIndex;

// The weights of the hyperedges, by place.
pub fn weights(t: &[u32], w: &mut [u32; 256])
    requires { Formed limit t.now }
    ensures { Weights (read limit t.now) (hyperedge_count t.now) w.new }
{
    let blank = [0u32; 256];
    *w = blank;
    let k = layout::hyperedge_count(t);
    for j in 0..k {
        w[j + 1] = layout::hyperedge_weight(t, j);
    }
}

// The record of a live vertex.
fn place(t: &[u32], x: u32) -> usize
    requires formed { Formed limit t.now }
    requires x_value { is_live (live_vertices (read limit t.now)) x ≡ true }
    ensures { position x (live_vertices (read limit t.now)) ≡ Some result }
{
    find::find_vertex(t, VertexIndex(x)).unwrap_or(0)
}

// The weight at place h.
fn weight_at(w: &[u32; 256], h: u8) -> u32
    ensures { result ≡ word_at w.now h }
{
    w[h as usize]
}

// Record b stands next in the list of record a.
fn append(a: usize, b: usize, lists: &mut [u8; 65536], counts: &mut [u32; 256])
    requires { (a < vertex_limit) × (b < vertex_limit) × (get_or counts.old a 0 < vertex_limit) }
    ensures { (lists.new ≡ set lists.old (cell a (get_or counts.old a 0)) b) × (counts.new ≡ set counts.old a (get_or counts.old a 0 + 1)) }
{
    let i = counts[a];
    lists[a * layout::VERTEX_LIMIT + i as usize] = b as u8;
    counts[a] = i + 1;
}

// The hyperedge at place k makes the step between records a and b: it is chosen where there was none, and the step is listed, or where it weighs less.
fn choose(
    w: &[u32; 256],
    k: u8,
    a: usize,
    b: usize,
    c: &mut [u8; 65536],
    lists: &mut [u8; 65536],
    counts: &mut [u32; 256],
)
    requires { (a < vertex_limit) × (b < vertex_limit) × (0 < k) × (length c.old ≡ vertex_limit * vertex_limit) × Listed c.old lists.old counts.old }
    ensures { (c.new ≡ set c.old (cell a b) (lighter (word_at w.now) (get_or c.old (cell a b) 0) k)) × Listed c.new lists.new counts.new }
{
    let h = c[a * layout::VERTEX_LIMIT + b];
    if h == 0 {
        c[a * layout::VERTEX_LIMIT + b] = k;
        append(a, b, lists, counts);
        return;
    }
    if weight_at(w, k) < weight_at(w, h) {
        c[a * layout::VERTEX_LIMIT + b] = k;
    }
}

// A step from record a to record b: as it leads, or against its direction where `back`.
fn choose_step(
    back: bool,
    w: &[u32; 256],
    k: u8,
    a: usize,
    b: usize,
    c: &mut [u8; 65536],
    lists: &mut [u8; 65536],
    counts: &mut [u32; 256],
)
    requires { (a < vertex_limit) × (b < vertex_limit) × (0 < k) × (length c.old ≡ vertex_limit * vertex_limit) × Listed c.old lists.old counts.old }
    ensures { (c.new ≡ set c.old (facing back cell a b) (lighter (word_at w.now) (get_or c.old (facing back cell a b) 0) k)) × Listed c.new lists.new counts.new }
{
    if back {
        choose(w, k, b, a, c, lists, counts);
    } else {
        choose(w, k, a, b, c, lists, counts);
    }
}

// Chooses among the steps of hyperedge record j: each member's record is found once.
fn choose_record(
    back: bool,
    t: &[u32],
    w: &[u32; 256],
    j: usize,
    c: &mut [u8; 65536],
    lists: &mut [u8; 65536],
    counts: &mut [u32; 256],
)
    requires formed { Formed limit t.now }
    requires j_bound { (j < hyperedge_count t.now) × Weights (read limit t.now) (hyperedge_count t.now) w.now × Choosing back t.now j c.old × Listed c.old lists.old counts.old }
    ensures { Choosing back t.now (j + 1) c.new × Listed c.new lists.new counts.new }
{
    let k = (j + 1) as u8;
    let ms = layout::members_formed(t, j);
    let mut a = place(t, ms[0]);
    for i in 0..ms.len() - 1 {
        let b = place(t, ms[i + 1]);
        choose_step(back, w, k, a, b, c, lists, counts);
        a = b;
    }
}

// The choices of the table's steps, and the lists of the steps: as they lead, or against their direction where `back`.
pub fn choices(
    back: bool,
    t: &[u32],
    w: &[u32; 256],
    c: &mut [u8; 65536],
    lists: &mut [u8; 65536],
    counts: &mut [u32; 256],
)
    requires formed { Formed limit t.now }
    requires weights { Weights (read limit t.now) (hyperedge_count t.now) w.now × (length lists.old ≡ vertex_limit * vertex_limit) }
    ensures { Chosen back t.now c.new × Listed c.new lists.new counts.new }
{
    let blank = [0u8; 65536];
    *c = blank;
    let none = [0u32; 256];
    *counts = none;
    let k = layout::hyperedge_count(t);
    for j in 0..k {
        choose_record(back, t, w, j, c, lists, counts);
    }
}
