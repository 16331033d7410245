// The members of the lists, without some at the front or the back.
#![tactic(auto)]

ghost use Rattle.std.specs.Prelude.{◌≡◌, ◌+◌, ◌<◌, ◌≤◌, eqb, length};
ghost use Rattle.layout.specs.Content.{live_vertices};
ghost use Rattle.layout.specs.Layout.{limit, vertex_limit, hyperedge_count, hyperedge_at, read};
ghost use Rattle.layout.specs.Inner.{Formed};
ghost use Rattle.lookups.specs.State.{some_of, with, no_marks, MarkedBy};
ghost use Rattle.properties.specs.State.{in_trimmed};

// Marks the members of a list.
pub fn mark_members(t: &[u32], ms: &[u32], marks: &mut [bool; 256])
    requires formed { Formed limit t.now }
    requires marks_len { length marks.old ≡ vertex_limit }
    ensures { MarkedBy (live_vertices (read limit t.now)) (some_of eqb ms.now) marks.old marks.new }
{
    for i in 0..ms.len() {
        marks::mark(t, ms[i], marks);
    }
}

// Marks the members of record j but its first and its last, so many of each.
fn mark_record(t: &[u32], j: usize, front: usize, back: usize, marks: &mut [bool; 256])
    requires formed { Formed limit t.now }
    requires j_bound { (j < hyperedge_count t.now) × ((front + back ≤ 1) × (length marks.old ≡ vertex_limit)) }
    ensures { MarkedBy (live_vertices (read limit t.now)) (with (in_trimmed front back) (hyperedge_at limit t.now j)) marks.old marks.new }
{
    let ms = layout::members_formed(t, j);
    let e = ms.len() - back;
    mark_members(t, &ms[front..e], marks);
}

// The marks of the members of every list but its first and its last, so many of each.
pub fn listed_marks(t: &[u32], front: usize, back: usize) -> [bool; 256]
    requires formed { Formed limit t.now }
    requires back_bound { front + back ≤ 1 }
    ensures { MarkedBy (live_vertices (read limit t.now)) (some_of (in_trimmed front back) (read limit t.now).hyperedges) no_marks result }
{
    let m = layout::hyperedge_count(t);
    let mut marks = [false; 256];
    for j in 0..m {
        mark_record(t, j, front, back, &mut marks);
    }
    marks
}
