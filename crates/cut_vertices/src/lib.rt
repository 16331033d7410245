// The mates of a vertex, what is reached past it, and the cut vertices.
#![tactic(auto)]

ghost use Rattle.std.specs.Prelude.{◌≡◌, ◌<◌, ◌≤◌, length};
ghost use Rattle.lists.specs.Tests.{every};
ghost use Rattle.layout.specs.Layout.{limit, vertex_limit, vertex_count, read};
ghost use Rattle.layout.specs.Inner.{Formed};
ghost use Rattle.layout.specs.Answers.{result_of};
ghost use Rattle.graph.specs.Reach.{matrix, Symmetric};
ghost use Rattle.graph.specs.Post.{Reached};
ghost use Rattle.steps.specs.Inner.{Holds};
ghost use Rattle.cut.specs.Cut.{cut_vertices_result};
ghost use Rattle.cut.specs.State.{together_between, stopping, is_mate, FirstMate, is_kept, Cleared, CutIn, Decides, CutsMarked};

use cut::together_matrix;
use layout::Answer;

// Whether j is another record that shares a list with v.
fn is_mate(m: &[u8; 65536], v: usize, j: usize) -> bool
    requires { (v < vertex_limit) × (j < vertex_limit) }
    ensures { result ≡ is_mate (matrix m.now) v j }
{
    if j == v {
        return false;
    }
    m[v * layout::VERTEX_LIMIT + j] == 1
}

// The first such record below n, or n.
fn first_mate(m: &[u8; 65536], n: usize, v: usize) -> usize
    requires { (n ≤ vertex_limit) × (v < n) }
    ensures { FirstMate (matrix m.now) n v result }
{
    for j in 0..n {
        if is_mate(m, v, j) {
            return j;
        }
    }
    n
}

// Nothing leads on from v any more.
fn clear_row(rest: &mut [u8; 65536], v: usize)
    requires { v < vertex_limit }
    ensures { Cleared v vertex_limit rest.old rest.new }
{
    for j in 0..layout::VERTEX_LIMIT {
        rest[v * layout::VERTEX_LIMIT + j] = 0;
    }
}

// What led on from v does so again.
fn restore_row(m: &[u8; 65536], rest: &mut [u8; 65536], v: usize)
    requires { (v < vertex_limit) × Cleared v vertex_limit m.now rest.old }
    ensures { rest.new ≡ m.now }
{
    for j in 0..layout::VERTEX_LIMIT {
        rest[v * layout::VERTEX_LIMIT + j] = m[v * layout::VERTEX_LIMIT + j];
    }
}

// Marks what is reached from a, where nothing leads on from v. `rest` is a copy of m, lent for that.
fn reach_past(
    m: &[u8; 65536],
    rest: &mut [u8; 65536],
    n: usize,
    v: usize,
    a: usize,
    marks: &mut [u8; 256],
)
    requires { (n ≤ vertex_limit) × (v < n) × (a < n) × (rest.old ≡ m.now) }
    ensures { Reached (stopping (matrix m.now) v) n a marks.new × (rest.new ≡ m.now) }
{
    clear_row(rest, v);
    graph::reach_from(rest, n, a, marks);
    restore_row(m, rest, v);
}

// Whether j is marked, if it shares a list with v.
fn is_kept(m: &[u8; 65536], v: usize, marks: &[u8; 256], j: usize) -> bool
    requires { (v < vertex_limit) × (j < vertex_limit) }
    ensures { result ≡ is_kept (matrix m.now) v marks.now j }
{
    if !is_mate(m, v, j) {
        return true;
    }
    marks[j] == 1
}

// Whether every other record below n that shares a list with v is marked.
fn all_kept(m: &[u8; 65536], n: usize, v: usize, marks: &[u8; 256]) -> bool
    requires { (n ≤ vertex_limit) × (v < n) }
    ensures { result ≡ every (is_kept (matrix m.now) v marks.now) n }
{
    for j in 0..n {
        if !is_kept(m, v, marks, j) {
            return false;
        }
    }
    true
}

// Whether v parts its first mate a from another of its mates.
fn parts_mates(m: &[u8; 65536], rest: &mut [u8; 65536], n: usize, v: usize, a: usize) -> bool
    requires { (n ≤ vertex_limit) × (v < n) × (a < n) × Symmetric (matrix m.now) n × FirstMate (matrix m.now) n v a × (rest.old ≡ m.now) }
    ensures { Decides result (CutIn (matrix m.now) n v) × (rest.new ≡ m.now) }
{
    let mut marks = [0u8; 256];
    reach_past(m, rest, n, v, a, &mut marks);
    !all_kept(m, n, v, &marks)
}

// Whether v is cut.
fn is_cut(m: &[u8; 65536], rest: &mut [u8; 65536], n: usize, v: usize) -> bool
    requires { (n ≤ vertex_limit) × (v < n) × Symmetric (matrix m.now) n × (rest.old ≡ m.now) }
    ensures { Decides result (CutIn (matrix m.now) n v) × (rest.new ≡ m.now) }
{
    let a = first_mate(m, n, v);
    if a < n {
        return parts_mates(m, rest, n, v, a);
    }
    false
}

// Marks which of the n records are cut.
fn judge(m: &[u8; 65536], n: usize, cuts: &mut [bool; 256])
    requires { (n ≤ vertex_limit) × Symmetric (matrix m.now) n × (length cuts.old ≡ vertex_limit) }
    ensures { CutsMarked (matrix m.now) n n cuts.new }
{
    let mut rest = *m;
    for v in 0..n {
        cuts[v] = is_cut(m, &mut rest, n, v);
    }
}

// The matrix that is searched: all members of a list are linked, so that they still are when one of them is taken away.
fn searched_matrix(t: &[u32], m: &mut [u8; 65536])
    requires { Formed limit t.now }
    ensures { Holds (together_between (read limit t.now)) (vertex_count t.now) m.new }
{
    together_matrix(t, m);
}

// Lists the cut vertices of a well-formed table, ascending.
pub fn cut_vertices_formed(t: &[u32], out: &mut [u32]) -> Answer
    requires { Formed limit t.now }
    ensures { result_of result out.new ≡ cut_vertices_result out.old (read limit t.now) }
{
    let n = layout::vertex_count(t);
    let mut m = [0u8; 65536];
    searched_matrix(t, &mut m);
    let mut cuts = [false; 256];
    judge(&m, n, &mut cuts);
    marks::list_marked(t, &cuts, out)
}
