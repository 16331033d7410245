// Merging one vertex into another.
#![tactic(auto)]

ghost use Rattle.std.specs.Prelude.{◌≡◌};
ghost use Rattle.layout.specs.Content.{live_vertices, position};
ghost use Rattle.layout.specs.Layout.{limit, read};
ghost use Rattle.layout.specs.Inner.{Formed};
ghost use Rattle.layout.specs.Answers.{on_formed, result_of};
ghost use Rattle.edits.specs.Results.{merge_result};
ghost use Rattle.edits.specs.Stages.{merge_live_result, merge_into_result};

use edits::shift::drop_vertex;
use layout::{Answer, HyperedgeIndex, Refusal, VertexIndex};
use rename_vertex::rename_vertex;
use side_by_side::find_side_by_side;

// Tests 13 and 14, then merges. The record of w is at place i.
fn merge_live(t: &mut [u32], v: VertexIndex, w: VertexIndex, i: usize) -> Answer
    requires formed { Formed limit t.old }
    requires t_value { position w.0 (live_vertices (read limit t.old)) ≡ Some i }
    ensures { result_of result t.new ≡ merge_live_result v.0 w.0 t.old (read limit t.old) }
{
    if v.0 == w.0 {
        return Err(Refusal::SameVertex(v));
    }
    if let Some(j) = find_side_by_side(t, v.0, w.0) {
        return Err(Refusal::SideBySide(HyperedgeIndex(layout::hyperedge_number(t, j))));
    }
    let n = layout::vertex_count(t);
    rename_vertex(t, v.0, w.0);
    drop_vertex(t, i, n);
    Ok(0)
}

// The merge, where v is live.
fn merge_into(t: &mut [u32], v: VertexIndex, w: VertexIndex) -> Answer
    requires { Formed limit t.old }
    ensures { result_of result t.new ≡ merge_into_result v.0 w.0 t.old (read limit t.old) }
{
    let i = find::find_vertex(t, w).ok_or(Refusal::VertexNotLive(w))?;
    merge_live(t, v, w, i)
}

// The merge, of a well-formed table.
fn merge_formed(t: &mut [u32], v: VertexIndex, w: VertexIndex) -> Answer
    requires { Formed limit t.old }
    ensures { result_of result t.new ≡ merge_result v.0 w.0 t.old (read limit t.old) }
{
    find::find_vertex(t, v).ok_or(Refusal::VertexNotLive(v))?;
    merge_into(t, v, w)
}

// Merges w into v: each w in every list becomes v, and w is removed.
pub fn merge_vertices(t: &mut [u32], v: VertexIndex, w: VertexIndex) -> Answer
    ensures { result_of result t.new ≡ on_formed t.old t.old (merge_result v.0 w.0 t.old) }
{
    if !well_formed::well_formed(t) {
        return Err(Refusal::NotWellFormed);
    }
    merge_formed(t, v, w)
}
