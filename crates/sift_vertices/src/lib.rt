// The vertex records that have no mark, moved together. `old` is the table as it stood: it is read, and t is written.
#![tactic(auto)]

ghost use Rattle.std.specs.Prelude.{◌≡◌, ◌<◌, ◌≤◌, length};
ghost use Rattle.layout.specs.Layout.{limit, vertex_limit, size, vertex_count, vertex_at};
ghost use Rattle.edits.specs.Removing.{with_vertices};
ghost use Rattle.sift_vertices.specs.Unmarked.{unmarked, VertexTurn};

use edits::shift::clear_words;

// Writes vertex record i of old to record k's place, and says the next place: k again where it has a mark.
fn move_vertex(t: &mut [u32], old: &[u32], marks: &[bool; 256], i: usize, k: usize) -> usize
    requires t_len { (length t.old ≡ size limit) × (length old.now ≡ size limit) }
    requires i_lt_vertex_limit { (i < vertex_limit) × (k ≤ i) }
    ensures { VertexTurn marks.now old.now i k t.old result t.new }
{
    if marks[i] {
        return k;
    }
    let b = layout::VERTICES_AT + i * layout::VERTEX_SIZE;
    let a = layout::VERTICES_AT + k * layout::VERTEX_SIZE;
    t[a] = old[b];
    t[a + 1] = old[b + 1];
    k + 1
}

// Writes the vertex records of old that have no mark one after the other, clears what is behind them, and counts them.
pub fn sift_vertices(t: &mut [u32], old: &[u32], marks: &[bool; 256])
    requires t_len { (length t.old ≡ size limit) × (length old.now ≡ size limit) }
    requires bound { vertex_count old.now ≤ vertex_limit }
    ensures { t.new ≡ with_vertices (unmarked (vertex_at old.now) marks.now (vertex_count old.now)) t.old }
{
    let n = layout::vertex_count(old);
    let mut k = 0;
    for i in 0..n {
        k = move_vertex(t, old, marks, i, k);
    }
    let a = layout::VERTICES_AT + k * layout::VERTEX_SIZE;
    clear_words(t, a, layout::HYPEREDGES_AT - a);
    t[2] = k as u32;
}
