// Degrees: the places at which a vertex is stepped to or from.
#![tactic(auto)]

ghost use Rattle.std.specs.Prelude.{◌≡◌, []};
ghost use Rattle.layout.specs.Layout.{limit, read};
ghost use Rattle.layout.specs.Inner.{Formed};
ghost use Rattle.layout.specs.Answers.{result_of, on_formed};
ghost use Rattle.lookups.specs.declared.Direction.TheVariants.{From, To};
ghost use Rattle.lookups.specs.Lookups.{has_end, places, degree};
ghost use Rattle.lookups.specs.Results.{degree_result};

use layout::{Answer, Refusal, VertexIndex};
use lookups::{Direction, ends_at};

// The places of a list at which a step leads from v, or to v.
fn places_at(ms: &[u32], v: u32, dir: Direction) -> usize
    ensures { result ≡ places (has_end dir v) ms.now }
{
    let mut n: usize = 0;
    for i in 0..ms.len().saturating_sub(1) {
        let ends = ends_at(ms, i, dir);
        if ends.near == v {
            n += 1;
        }
    }
    n
}

fn degree(t: &[u32], v: u32, dir: Direction) -> usize
    requires { Formed limit t.now }
    ensures { result ≡ degree dir v (read limit t.now) }
{
    let m = layout::hyperedge_count(t);
    let mut n = 0;
    for j in 0..m {
        n += places_at(layout::members_formed(t, j), v, dir);
    }
    n
}

fn degree_of(t: &[u32], v: VertexIndex, dir: Direction) -> Answer
    requires { Formed limit t.now }
    ensures { result_of result [] ≡ degree_result dir v.0 (read limit t.now) }
{
    find::find_vertex(t, v).ok_or(Refusal::VertexNotLive(v))?;
    Ok(degree(t, v.0, dir))
}

// The places at which the vertex is stepped to.
pub fn get_vertex_degree_in(t: &[u32], v: VertexIndex) -> Answer
    ensures { result_of result [] ≡ on_formed t.now [] (degree_result To v.0) }
{
    if !well_formed::well_formed(t) {
        return Err(Refusal::NotWellFormed);
    }
    degree_of(t, v, Direction::To)
}

// The places at which the vertex is stepped from.
pub fn get_vertex_degree_out(t: &[u32], v: VertexIndex) -> Answer
    ensures { result_of result [] ≡ on_formed t.now [] (degree_result From v.0) }
{
    if !well_formed::well_formed(t) {
        return Err(Refusal::NotWellFormed);
    }
    degree_of(t, v, Direction::From)
}
