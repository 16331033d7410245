// Release of a vertex.
#![tactic(auto)]

ghost use Rattle.std.specs.Prelude.{◌≡◌, not, ◌<◌, ◌≤◌, eqb, length};
ghost use Rattle.lists.specs.Tests.{◌and◌};
ghost use Rattle.lists.specs.Lists.{up_to};
ghost use Rattle.layout.specs.Content.{live_vertices, position};
ghost use Rattle.layout.specs.Layout.{limit, vertex_limit, read};
ghost use Rattle.layout.specs.Inner.{Formed};
ghost use Rattle.layout.specs.Answers.{result_of};
ghost use Rattle.edits.specs.Results.{first_passing};
ghost use Rattle.desk.specs.States.{released};
ghost use Rattle.desk.specs.Desk.{desk_of};
ghost use Rattle.desk.specs.Releases.{on_desk, release_result};
ghost use Rattle.desk_release.specs.Held.{held_at, release_reviewed_result, release_live_result};

use desk::{RELEASED, REVIEWED};
use desk_fits::desk_fits;
use layout::{Answer, Refusal, VertexIndex};

// Whether a record holds what it has a step into: it is marked, and not released.
fn is_held(mark: bool, x: u32) -> bool
    ensures { result ≡ (mark and not (eqb x released)) }
{
    if !mark {
        return false;
    }
    x != RELEASED
}

// The first of n records that is marked and not released.
fn first_held(s: &[u32], marks: &[bool; 256], n: usize) -> Option<usize>
    requires { (n ≤ vertex_limit) × (length s.now ≡ vertex_limit) }
    ensures { result ≡ first_passing (held_at s.now marks.now) (up_to n) }
{
    for k in 0..n {
        if is_held(marks[k], s[k]) {
            return Some(k);
        }
    }
    None
}

// Releases the reviewed vertex of record i, where every vertex with a step into it is released.
fn release_reviewed(t: &[u32], s: &mut [u32], v: VertexIndex, i: usize) -> Answer
    requires formed { Formed limit t.now }
    requires s_len { (length s.old ≡ vertex_limit) × (i < vertex_limit) × (position v.0 (live_vertices (read limit t.now)) ≡ Some i) }
    ensures { result_of result s.new ≡ release_reviewed_result v.0 s.old (read limit t.now) }
{
    let marks = desk_upstream::upstream_marks(t, v.0);
    let n = layout::vertex_count(t);
    if let Some(k) = first_held(s, &marks, n) {
        return Err(Refusal::UpstreamHeld(VertexIndex(layout::vertex_number(t, k))));
    }
    s[i] = RELEASED;
    Ok(0)
}

// The release of the vertex of record i.
fn release_live(t: &[u32], s: &mut [u32], v: VertexIndex, i: usize) -> Answer
    requires formed { Formed limit t.now }
    requires s_len { (length s.old ≡ vertex_limit) × (i < vertex_limit) × (position v.0 (live_vertices (read limit t.now)) ≡ Some i) }
    ensures { result_of result s.new ≡ release_live_result v.0 s.old (read limit t.now) }
{
    let x = s[i];
    if x == RELEASED {
        return Ok(0);
    }
    if x != REVIEWED {
        return Err(Refusal::NotReviewed(v));
    }
    release_reviewed(t, s, v, i)
}

pub fn release_formed(t: &[u32], s: &mut [u32], v: VertexIndex) -> Answer
    requires formed { Formed limit t.now }
    requires s_len { length s.old ≡ vertex_limit }
    ensures { result_of result s.new ≡ release_result v.0 s.old (read limit t.now) }
{
    let i = find::find_vertex(t, v).ok_or(Refusal::VertexNotLive(v))?;
    release_live(t, s, v, i)
}

// Releases a vertex: it must be reviewed, and every vertex with a step into it released. A released one stays so.
pub fn desk_release(t: &[u32], s: &mut [u32], v: VertexIndex) -> Answer
    ensures { result_of result s.new ≡ on_desk (desk_of t.now s.old) s.old (release_result v.0 s.old) }
{
    if !desk_fits(t, s) {
        return Err(Refusal::NotWellFormed);
    }
    release_formed(t, s, v)
}
