// The records that list each vertex.
#![tactic(auto)]

ghost use Rattle.std.specs.Prelude.{◌≡◌, ◌<◌, ◌+◌, length, get_or, set};
ghost use Rattle.layout.specs.Layout.{limit, vertex_limit, hyperedge_count, members_at};
ghost use Rattle.layout.specs.Inner.{Formed};
ghost use Rattle.steps.specs.Inner.{cell};
ghost use Rattle.walk.specs.Passes.{Firsts, Entering, Listers};

use layout::VertexIndex;

// One place more in row i.
fn append(i: usize, j: usize, rows: &mut [u8; 65536], counts: &mut [usize; 256])
    requires i_lt_vertex_limit { (i < vertex_limit) × (j < vertex_limit) }
    requires i_bound { get_or counts.old i 0 < vertex_limit }
    ensures { (rows.new ≡ set rows.old (cell i (get_or counts.old i 0)) j) × (counts.new ≡ set counts.old i (get_or counts.old i 0 + 1)) }
{
    let c = counts[i];
    rows[i * layout::VERTEX_LIMIT + c] = j as u8;
    counts[i] = c + 1;
}

// Record j goes to the row of its member x at place p, where that is a first place.
fn enter(
    t: &[u32],
    firsts: &[bool; 65536],
    x: u32,
    j: usize,
    p: usize,
    rows: &mut [u8; 65536],
    counts: &mut [usize; 256],
)
    requires formed { Formed limit t.now }
    requires j_bound { (j < hyperedge_count t.now) × (p < length (members_at limit t.now j)) × (x ≡ get_or (members_at limit t.now j) p 0) × Firsts t.now firsts.now }
    requires entering { Entering t.now j p rows.old counts.old }
    ensures { Entering t.now j (p + 1) rows.new counts.new }
{
    if !firsts[j * layout::VERTEX_LIMIT + p] {
        return;
    }
    if let Some(i) = find::find_vertex(t, VertexIndex(x)) {
        append(i, j, rows, counts);
    }
}

// Record j goes to the rows of its members.
fn enter_record(
    t: &[u32],
    firsts: &[bool; 65536],
    j: usize,
    rows: &mut [u8; 65536],
    counts: &mut [usize; 256],
)
    requires formed { Formed limit t.now }
    requires j_bound { (j < hyperedge_count t.now) × Firsts t.now firsts.now × Listers t.now j rows.old counts.old }
    ensures { Listers t.now (j + 1) rows.new counts.new }
{
    let ms = layout::members_formed(t, j);
    for p in 0..ms.len() {
        enter(t, firsts, ms[p], j, p, rows, counts);
    }
}

// Every record goes to the rows of its members.
pub fn list_members(
    t: &[u32],
    firsts: &[bool; 65536],
    rows: &mut [u8; 65536],
    counts: &mut [usize; 256],
)
    requires formed { Formed limit t.now }
    requires firsts { Firsts t.now firsts.now }
    ensures { Listers t.now (hyperedge_count t.now) rows.new counts.new }
{
    let blank = [0u8; 65536];
    *rows = blank;
    let none = [0usize; 256];
    *counts = none;
    let k = layout::hyperedge_count(t);
    for j in 0..k {
        enter_record(t, firsts, j, rows, counts);
    }
}
