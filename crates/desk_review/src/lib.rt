// Review of a vertex.
#![tactic(auto)]

ghost use Rattle.std.specs.Prelude.{◌≡◌, ◌<◌, length, set};
ghost use Rattle.lists.specs.Lists.{word_at};
ghost use Rattle.layout.specs.Layout.{limit, vertex_limit, read};
ghost use Rattle.layout.specs.Inner.{Formed};
ghost use Rattle.layout.specs.Answers.{result_of};
ghost use Rattle.desk.specs.Desk.{desk_of};
ghost use Rattle.desk.specs.Releases.{on_desk, once_reviewed, review_result};

use desk::{REVIEWED, WAITING};
use desk_fits::desk_fits;
use layout::{Answer, Refusal, VertexIndex};

// What a review makes of a state.
fn once_reviewed(x: u32) -> u32
    ensures { result ≡ once_reviewed x }
{
    if x == WAITING { REVIEWED } else { x }
}

fn review_record(s: &mut [u32], i: usize)
    requires { i < length s.old }
    ensures { s.new ≡ set s.old i (once_reviewed (word_at s.old i)) }
{
    s[i] = once_reviewed(s[i]);
}

fn review_formed(t: &[u32], s: &mut [u32], v: VertexIndex) -> Answer
    requires formed { Formed limit t.now }
    requires s_len { length s.old ≡ vertex_limit }
    ensures { result_of result s.new ≡ review_result v.0 s.old (read limit t.now) }
{
    let i = find::find_vertex(t, v).ok_or(Refusal::VertexNotLive(v))?;
    review_record(s, i);
    Ok(0)
}

// Reviews a vertex: a waiting one becomes reviewed, the others stay.
pub fn desk_review(t: &[u32], s: &mut [u32], v: VertexIndex) -> Answer
    ensures { result_of result s.new ≡ on_desk (desk_of t.now s.old) s.old (review_result v.0 s.old) }
{
    if !desk_fits(t, s) {
        return Err(Refusal::NotWellFormed);
    }
    review_formed(t, s, v)
}
