// The other vertices that are upstream of a vertex, and those that are downstream of it.
#![tactic(auto)]

ghost use Rattle.std.specs.Prelude.{◌≡◌, ℕ, ◌<◌, ◌≤◌};
ghost use Rattle.layout.specs.Layout.{limit, vertex_limit, vertex_count, read};
ghost use Rattle.layout.specs.Inner.{Formed};
ghost use Rattle.layout.specs.Answers.{result_of, listed, on_formed};
ghost use Rattle.marks.specs.Marks.{is_marked};
ghost use Rattle.steps.specs.Matrices.{number_of};
ghost use Rattle.steps.specs.Inner.{Holds};
ghost use Rattle.lookups.specs.declared.Direction.TheVariants.{From, To};
ghost use Rattle.reached_vertices.specs.Reached.{reached_vertices, reached_result};
ghost use Rattle.reached_vertices.specs.Inner.{steps_along, seen_beside, SeenAlong};

use layout::{Answer, Refusal, VertexIndex};
use lookups::Direction;

// The matrix of the steps, as they lead or turned.
fn matrix_along(t: &[u32], dir: Direction, m: &mut [u8; 65536])
    requires { Formed limit t.now }
    ensures { Holds (steps_along dir (read limit t.now)) (vertex_count t.now) m.new }
{
    match dir {
        Direction::From => steps::step_matrix(t, m),
        Direction::To => steps::turned_matrix(t, m),
    }
}

// Marks the records that are reached from record i, or from which it is reached, by one search.
fn mark_reached(t: &[u32], i: usize, dir: Direction, seen: &mut [u8; 256])
    requires formed { Formed limit t.now }
    requires i_bound { i < vertex_count t.now }
    ensures { SeenAlong dir t.now i seen.new }
{
    let n = layout::vertex_count(t);
    let mut m = [0u8; 65536];
    matrix_along(t, dir, &mut m);
    graph::reach_from(&m, n, i, seen);
}

// Of the first n records those that are marked, without record i.
fn others(seen: &[u8; 256], n: usize, i: usize) -> [bool; 256]
    requires { (n ≤ vertex_limit) × (i < n) }
    ensures { ((k : ℕ) → k < n → is_marked result k ≡ seen_beside seen.now i k) }
{
    let mut marks = [false; 256];
    for k in 0..n {
        marks[k] = seen[k] == 1;
    }
    marks[i] = false;
    marks
}

fn list_reached(t: &[u32], i: usize, dir: Direction, out: &mut [u32]) -> Answer
    requires formed { Formed limit t.now }
    requires i_bound { i < vertex_count t.now }
    ensures { result_of result out.new ≡ listed (reached_vertices dir (number_of (read limit t.now) i) (read limit t.now)) out.old }
{
    let n = layout::vertex_count(t);
    let mut seen = [0u8; 256];
    mark_reached(t, i, dir, &mut seen);
    let marks = others(&seen, n, i);
    marks::list_marked(t, &marks, out)
}

fn reached_formed(t: &[u32], v: VertexIndex, dir: Direction, out: &mut [u32]) -> Answer
    requires { Formed limit t.now }
    ensures { result_of result out.new ≡ reached_result dir v.0 out.old (read limit t.now) }
{
    let i = find::find_vertex(t, v).ok_or(Refusal::VertexNotLive(v))?;
    list_reached(t, i, dir, out)
}

// The other vertices from which the vertex is reached, ascending.
pub fn get_upstream_vertices(t: &[u32], v: VertexIndex, out: &mut [u32]) -> Answer
    ensures { result_of result out.new ≡ on_formed t.now out.old (reached_result To v.0 out.old) }
{
    if !well_formed::well_formed(t) {
        return Err(Refusal::NotWellFormed);
    }
    reached_formed(t, v, Direction::To, out)
}

// The other vertices that are reached from the vertex, ascending.
pub fn get_downstream_vertices(t: &[u32], v: VertexIndex, out: &mut [u32]) -> Answer
    ensures { result_of result out.new ≡ on_formed t.now out.old (reached_result From v.0 out.old) }
{
    if !well_formed::well_formed(t) {
        return Err(Refusal::NotWellFormed);
    }
    reached_formed(t, v, Direction::From, out)
}
