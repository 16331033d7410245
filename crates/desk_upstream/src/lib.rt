// The vertices with a step into a vertex, marked.
#![tactic(auto)]

ghost use Rattle.std.specs.Prelude.{◌≡◌, ◌<◌, length};
ghost use Rattle.layout.specs.Content.{live_vertices};
ghost use Rattle.layout.specs.Layout.{limit, vertex_limit, hyperedge_count, hyperedge_at, read};
ghost use Rattle.layout.specs.Inner.{Formed};
ghost use Rattle.layout.specs.Steps.{steps_of, is_step};
ghost use Rattle.lookups.specs.Lookups.{oriented, relates, is_related};
ghost use Rattle.lookups.specs.State.{some_of, with, no_marks, MarkedBy};
ghost use Rattle.lookups.specs.declared.Direction.TheVariants.{To};
ghost use Rattle.lookups.specs.declared.Relation.TheVariants.{Along};

use lookups::{Direction, ends_at};

// Marks the vertices from which a step of a list leads to v.
fn mark_before(t: &[u32], list: &[u32], v: u32, marks: &mut [bool; 256])
    requires formed { Formed limit t.now }
    requires marks_len { length marks.old ≡ vertex_limit }
    ensures { MarkedBy (live_vertices (read limit t.now)) (some_of (oriented To is_step v) (steps_of list.now)) marks.old marks.new }
{
    for i in 0..list.len().saturating_sub(1) {
        let ends = ends_at(list, i, Direction::To);
        if ends.near == v {
            marks::mark(t, ends.far, marks);
        }
    }
}

// Marks the vertices from which a step of record j leads to v.
fn mark_record(t: &[u32], j: usize, v: u32, marks: &mut [bool; 256])
    requires formed { Formed limit t.now }
    requires j_bound { (j < hyperedge_count t.now) × (length marks.old ≡ vertex_limit) }
    ensures { MarkedBy (live_vertices (read limit t.now)) (with (relates (Along To) v) (hyperedge_at limit t.now j)) marks.old marks.new }
{
    let ms = layout::members_formed(t, j);
    mark_before(t, ms, v, marks);
}

// Marks the vertices with a step into v.
pub fn upstream_marks(t: &[u32], v: u32) -> [bool; 256]
    requires { Formed limit t.now }
    ensures { MarkedBy (live_vertices (read limit t.now)) (is_related (Along To) (read limit t.now) v) no_marks result }
{
    let m = layout::hyperedge_count(t);
    let mut marks = [false; 256];
    for j in 0..m {
        mark_record(t, j, v, &mut marks);
    }
    marks
}
