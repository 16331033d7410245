// Edits through the release desk that take a vertex out: the answer and the table are the lower edit's, and the states behind its record move down.
#![tactic(auto)]

ghost use Rattle.std.specs.Prelude.{◌≡◌};
ghost use Rattle.removals.specs.Removals.{vertex};
ghost use Rattle.calls.specs.Calls.{merge, remove};
ghost use Rattle.desk.specs.Desk.{desk_of, outcome, desk_edit};
ghost use Rattle.desk_states.specs.Following.{Opened};

use desk_states::{follow_done, is_open, note_numbers};
use layout::{Answer, Refusal, VertexIndex};

// The removal, from a desk that was found open, with its n numbers noted.
fn remove_noted(
    t: &mut [u32],
    s: &mut [u32],
    numbers: &[u32; 256],
    n: usize,
    v: VertexIndex,
) -> Answer
    requires { Opened t.old s.old n numbers.now }
    ensures { outcome result (desk_of t.new s.new) ≡ desk_edit (remove (vertex v.0)) (desk_of t.old s.old) }
{
    let a = remove_vertex::remove_vertex(t, v);
    follow_done(t, numbers, n, s, a);
    a
}

pub fn desk_remove_vertex(t: &mut [u32], s: &mut [u32], v: VertexIndex) -> Answer
    ensures { outcome result (desk_of t.new s.new) ≡ desk_edit (remove (vertex v.0)) (desk_of t.old s.old) }
{
    if !is_open(t, s) {
        return Err(Refusal::NotWellFormed);
    }
    let n = layout::vertex_count(t);
    let numbers = note_numbers(t);
    remove_noted(t, s, &numbers, n, v)
}

// The merge, from a desk that was found open, with its n numbers noted: w loses its state, and v keeps its own.
fn merge_noted(
    t: &mut [u32],
    s: &mut [u32],
    numbers: &[u32; 256],
    n: usize,
    v: VertexIndex,
    w: VertexIndex,
) -> Answer
    requires { Opened t.old s.old n numbers.now }
    ensures { outcome result (desk_of t.new s.new) ≡ desk_edit (merge v.0 w.0) (desk_of t.old s.old) }
{
    let a = merge_vertices::merge_vertices(t, v, w);
    follow_done(t, numbers, n, s, a);
    a
}

pub fn desk_merge_vertices(t: &mut [u32], s: &mut [u32], v: VertexIndex, w: VertexIndex) -> Answer
    ensures { outcome result (desk_of t.new s.new) ≡ desk_edit (merge v.0 w.0) (desk_of t.old s.old) }
{
    if !is_open(t, s) {
        return Err(Refusal::NotWellFormed);
    }
    let n = layout::vertex_count(t);
    let numbers = note_numbers(t);
    merge_noted(t, s, &numbers, n, v, w)
}
