// The steps of a walk.
#![tactic(auto)]

ghost use Rattle.std.specs.Prelude.{◌≡◌, ◌≤◌, length};
ghost use Rattle.lists.specs.Lists.{over};
ghost use Rattle.layout.specs.Content.{live_vertices, position};
ghost use Rattle.layout.specs.Layout.{limit, read};
ghost use Rattle.layout.specs.Inner.{Formed};
ghost use Rattle.walk.specs.Walk.{move, walk_from};
ghost use Rattle.walk.specs.Passes.{Prepared};

use layout::VertexIndex;
use moves::{drawn_hyperedge, lister_count, to_one_of};
use walk::{Walker, xorshift};

// A step of a walker that stands at the vertex of record i.
fn step_from(
    t: &[u32],
    firsts: &[bool; 65536],
    rows: &[u8; 65536],
    counts: &[usize; 256],
    i: usize,
    w: Walker,
) -> Walker
    requires formed { Formed limit t.now }
    requires t_value { (position w.at (live_vertices (read limit t.now)) ≡ Some i) × Prepared t.now firsts.now rows.now counts.now }
    ensures { result ≡ move (read limit t.now) w }
{
    let n = lister_count(t, rows, counts, i);
    if n == 0 {
        return w;
    }
    let draw = xorshift(w.state);
    let j = drawn_hyperedge(t, rows, counts, i, n, draw);
    to_one_of(t, firsts, j, w.at, draw)
}

fn step(
    t: &[u32],
    firsts: &[bool; 65536],
    rows: &[u8; 65536],
    counts: &[usize; 256],
    w: Walker,
) -> Walker
    requires formed { Formed limit t.now }
    requires prepared { Prepared t.now firsts.now rows.now counts.now }
    ensures { result ≡ move (read limit t.now) w }
{
    let Some(i) = find::find_vertex(t, VertexIndex(w.at)) else {
        return w;
    };
    step_from(t, firsts, rows, counts, i, w)
}

// Writes the first n vertices from w on.
pub fn write_walk(
    t: &[u32],
    firsts: &[bool; 65536],
    rows: &[u8; 65536],
    counts: &[usize; 256],
    w: Walker,
    n: usize,
    out: &mut [u32],
)
    requires formed { Formed limit t.now }
    requires n_in_bounds { (n ≤ length out.old) × Prepared t.now firsts.now rows.now counts.now }
    ensures { out.new ≡ over (walk_from (read limit t.now) w n) out.old }
{
    let mut at = w.at;
    let mut state = w.state;
    for i in 0..n {
        out[i] = at;
        let next = step(t, firsts, rows, counts, Walker { at, state });
        at = next.at;
        state = next.state;
    }
}
