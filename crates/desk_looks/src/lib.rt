// What the desk shows of the states: the state of a vertex, and the vertices in a state.
#![tactic(auto)]

ghost use Rattle.std.specs.Prelude.{◌≡◌, [], ◌+◌, ◌<◌, ◌≤◌, length};
ghost use Rattle.lists.specs.Lists.{word_at};
ghost use Rattle.layout.specs.Layout.{limit, vertex_limit, read};
ghost use Rattle.layout.specs.Inner.{Formed};
ghost use Rattle.layout.specs.Answers.{result_of};
ghost use Rattle.desk.specs.Desk.{desk_of};
ghost use Rattle.desk.specs.Releases.{on_desk, state_result, list_result};
ghost use Rattle.desk_looks.specs.Held.{MarkedWhere, record_in};

use desk_fits::desk_fits;
use layout::{Answer, Refusal, VertexIndex};

fn state_formed(t: &[u32], s: &[u32], v: VertexIndex) -> Answer
    requires formed { Formed limit t.now }
    requires s_len { length s.now ≡ vertex_limit }
    ensures { result_of result [] ≡ state_result v.0 s.now (read limit t.now) }
{
    let i = find::find_vertex(t, v).ok_or(Refusal::VertexNotLive(v))?;
    Ok(state_at(s, i))
}

fn state_at(s: &[u32], i: usize) -> usize
    requires { i < length s.now }
    ensures { result ≡ word_at s.now i }
{
    layout::wide(s[i])
}

// The state of a vertex.
pub fn desk_state(t: &[u32], s: &[u32], v: VertexIndex) -> Answer
    ensures { result_of result [] ≡ on_desk (desk_of t.now s.now) [] (state_result v.0 s.now) }
{
    if !desk_fits(t, s) {
        return Err(Refusal::NotWellFormed);
    }
    state_formed(t, s, v)
}

// Marks those of n records that are in a state.
fn mark_state(s: &[u32], n: usize, state: u32) -> [bool; 256]
    requires { (n ≤ vertex_limit) × (length s.now ≡ vertex_limit) }
    ensures { MarkedWhere (record_in s.now state) n result }
{
    let mut marks = [false; 256];
    for k in 0..n {
        marks[k] = s[k] == state;
    }
    marks
}

fn list_formed(t: &[u32], s: &[u32], state: u32, out: &mut [u32]) -> Answer
    requires formed { Formed limit t.now }
    requires s_len { length s.now ≡ vertex_limit }
    ensures { result_of result out.new ≡ list_result state s.now out.old (read limit t.now) }
{
    let n = layout::vertex_count(t);
    let marks = mark_state(s, n, state);
    marks::list_marked(t, &marks, out)
}

// The vertices in a state.
pub fn desk_list(t: &[u32], s: &[u32], state: u32, out: &mut [u32]) -> Answer
    ensures { result_of result out.new ≡ on_desk (desk_of t.now s.now) out.old (list_result state s.now out.old) }
{
    if !desk_fits(t, s) {
        return Err(Refusal::NotWellFormed);
    }
    list_formed(t, s, state, out)
}
