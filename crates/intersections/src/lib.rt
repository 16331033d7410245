// The vertices that every hyperedge of a list has as a member.
#![tactic(auto)]

ghost use Rattle.std.specs.Prelude.{◌≡◌, ◌<◌, eqb, length};
ghost use Rattle.lists.specs.Tests.{◌and◌};
ghost use Rattle.layout.specs.Content.{live_vertices, lists};
ghost use Rattle.layout.specs.Layout.{limit, vertex_limit, hyperedge_count, hyperedge_at, read};
ghost use Rattle.layout.specs.Inner.{Formed};
ghost use Rattle.layout.specs.Answers.{result_of, on_formed};
ghost use Rattle.lookups.specs.Lookups.{is_shared};
ghost use Rattle.lookups.specs.State.{some_of, with, no_marks, MarkedBy, KeptBy, Both};
ghost use Rattle.lookups.specs.Results.{intersections_result};

use layout::{Answer, HyperedgeIndex, Refusal};

// The marks of the members of a list.
fn member_marks(t: &[u32], ms: &[u32]) -> [bool; 256]
    requires { Formed limit t.now }
    ensures { MarkedBy (live_vertices (read limit t.now)) (some_of eqb ms.now) no_marks result }
{
    let mut marks = [false; 256];
    for i in 0..ms.len() {
        marks::mark(t, ms[i], &mut marks);
    }
    marks
}

fn both(a: bool, b: bool) -> bool
    ensures { result ≡ (a and b) }
{
    if a {
        return b;
    }
    false
}

// Keeps the marks that the others have too.
fn keep_common(marks: &mut [bool; 256], others: &[bool; 256])
    requires { length marks.old ≡ vertex_limit }
    ensures { Both others.now marks.old marks.new }
{
    for k in 0..layout::VERTEX_LIMIT {
        marks[k] = both(marks[k], others[k]);
    }
}

// Keeps the marks of the members of record j.
fn keep_members(t: &[u32], j: usize, marks: &mut [bool; 256])
    requires formed { Formed limit t.now }
    requires j_bound { (j < hyperedge_count t.now) × (length marks.old ≡ vertex_limit) }
    ensures { KeptBy (live_vertices (read limit t.now)) (with lists (hyperedge_at limit t.now j)) marks.old marks.new }
{
    let others = member_marks(t, layout::members_formed(t, j));
    keep_common(marks, &others);
}

// The marks of the vertices that every hyperedge of the list has as a member.
fn shared_marks(t: &[u32], hyperedges: &[u32]) -> [bool; 256]
    requires { Formed limit t.now }
    ensures { MarkedBy (live_vertices (read limit t.now)) (is_shared (read limit t.now) hyperedges.now) no_marks result }
{
    let mut marks = [true; 256];
    for i in 0..hyperedges.len() {
        let Some(j) = find::find_hyperedge(t, HyperedgeIndex(hyperedges[i])) else {
            return [false; 256];
        };
        keep_members(t, j, &mut marks);
    }
    marks
}

// Lists the vertices that the hyperedges of the list share.
fn list_shared(t: &[u32], hyperedges: &[u32], out: &mut [u32]) -> Answer
    requires { Formed limit t.now }
    ensures { result_of result out.new ≡ intersections_result hyperedges.now out.old (read limit t.now) }
{
    if hyperedges.len() < 2 {
        return Err(Refusal::TooFewHyperedges);
    }
    if let Some(i) = find::first_missing_hyperedge(t, hyperedges) {
        return Err(Refusal::HyperedgeNotLive(HyperedgeIndex(hyperedges[i])));
    }
    let marks = shared_marks(t, hyperedges);
    marks::list_marked(t, &marks, out)
}

// The vertices that every hyperedge of the list has as a member.
pub fn get_hyperedges_intersections(t: &[u32], hyperedges: &[u32], out: &mut [u32]) -> Answer
    ensures { result_of result out.new ≡ on_formed t.now out.old (intersections_result hyperedges.now out.old) }
{
    if !well_formed::well_formed(t) {
        return Err(Refusal::NotWellFormed);
    }
    list_shared(t, hyperedges, out)
}
