// The vertices that some list relates to a vertex: adjacent ones, and the neighbourhood.
#![tactic(auto)]

ghost use Rattle.std.specs.Prelude.{◌≡◌, ◌<◌, length};
ghost use Rattle.layout.specs.Content.{live_vertices};
ghost use Rattle.layout.specs.Layout.{limit, vertex_limit, hyperedge_count, hyperedge_at, read};
ghost use Rattle.layout.specs.Inner.{Formed};
ghost use Rattle.layout.specs.Steps.{steps_of, is_step};
ghost use Rattle.layout.specs.Answers.{result_of, on_formed};
ghost use Rattle.lookups.specs.Lookups.{oriented, relates, is_related};
ghost use Rattle.lookups.specs.State.{some_of, with, is_other, no_marks, MarkedBy};
ghost use Rattle.lookups.specs.Results.{related_result};
ghost use Rattle.lookups.specs.declared.Direction.TheVariants.{From, To};
ghost use Rattle.lookups.specs.declared.Relation.TheVariants.{Along, Around};

use layout::{Answer, Refusal, VertexIndex};
use lookups::{Direction, Relation, ends_at, holds};

// Marks the vertices to which a step of a list leads from v, or from which one leads to v.
fn mark_ends(t: &[u32], list: &[u32], v: u32, dir: Direction, marks: &mut [bool; 256])
    requires formed { Formed limit t.now }
    requires marks_len { length marks.old ≡ vertex_limit }
    ensures { MarkedBy (live_vertices (read limit t.now)) (some_of (oriented dir is_step v) (steps_of list.now)) marks.old marks.new }
{
    for i in 0..list.len().saturating_sub(1) {
        let ends = ends_at(list, i, dir);
        if ends.near == v {
            marks::mark(t, ends.far, marks);
        }
    }
}

// Marks the members of a list other than v.
fn mark_others(t: &[u32], ms: &[u32], v: u32, marks: &mut [bool; 256])
    requires formed { Formed limit t.now }
    requires marks_len { length marks.old ≡ vertex_limit }
    ensures { MarkedBy (live_vertices (read limit t.now)) (some_of (is_other v) ms.now) marks.old marks.new }
{
    for i in 0..ms.len() {
        if ms[i] != v {
            marks::mark(t, ms[i], marks);
        }
    }
}

// Marks the vertices that record j relates to v.
fn mark_record(t: &[u32], j: usize, rel: Relation, v: u32, marks: &mut [bool; 256])
    requires formed { Formed limit t.now }
    requires j_bound { (j < hyperedge_count t.now) × (length marks.old ≡ vertex_limit) }
    ensures { MarkedBy (live_vertices (read limit t.now)) (with (relates rel v) (hyperedge_at limit t.now j)) marks.old marks.new }
{
    let ms = layout::members_formed(t, j);
    match rel {
        Relation::Along(dir) => mark_ends(t, ms, v, dir, marks),
        Relation::Around => {
            if holds(ms, v) {
                mark_others(t, ms, v, marks);
            }
        }
    }
}

fn related_marks(t: &[u32], rel: Relation, v: u32) -> [bool; 256]
    requires { Formed limit t.now }
    ensures { MarkedBy (live_vertices (read limit t.now)) (is_related rel (read limit t.now) v) no_marks result }
{
    let m = layout::hyperedge_count(t);
    let mut marks = [false; 256];
    for j in 0..m {
        mark_record(t, j, rel, v, &mut marks);
    }
    marks
}

fn list_related(t: &[u32], rel: Relation, v: VertexIndex, out: &mut [u32]) -> Answer
    requires { Formed limit t.now }
    ensures { result_of result out.new ≡ related_result rel v.0 out.old (read limit t.now) }
{
    find::find_vertex(t, v).ok_or(Refusal::VertexNotLive(v))?;
    let marks = related_marks(t, rel, v.0);
    marks::list_marked(t, &marks, out)
}

// The vertices that a step from the vertex leads to.
pub fn get_adjacent_vertices_from(t: &[u32], v: VertexIndex, out: &mut [u32]) -> Answer
    ensures { result_of result out.new ≡ on_formed t.now out.old (related_result (Along From) v.0 out.old) }
{
    if !well_formed::well_formed(t) {
        return Err(Refusal::NotWellFormed);
    }
    list_related(t, Relation::Along(Direction::From), v, out)
}

// The vertices from which a step leads to the vertex.
pub fn get_adjacent_vertices_to(t: &[u32], v: VertexIndex, out: &mut [u32]) -> Answer
    ensures { result_of result out.new ≡ on_formed t.now out.old (related_result (Along To) v.0 out.old) }
{
    if !well_formed::well_formed(t) {
        return Err(Refusal::NotWellFormed);
    }
    list_related(t, Relation::Along(Direction::To), v, out)
}

// The vertices that stand with the vertex in some list.
pub fn get_vertex_neighborhood(t: &[u32], v: VertexIndex, out: &mut [u32]) -> Answer
    ensures { result_of result out.new ≡ on_formed t.now out.old (related_result Around v.0 out.old) }
{
    if !well_formed::well_formed(t) {
        return Err(Refusal::NotWellFormed);
    }
    list_related(t, Relation::Around, v, out)
}
