// The sheets of a review and of releases, by the states before. Plain has none.
#![tactic(auto)]

ghost use Rattle.std.specs.Prelude.{◌≡◌, cond, [], length};
ghost use Rattle.layout.specs.Layout.{limit, vertex_limit, read};
ghost use Rattle.layout.specs.Inner.{Formed};
ghost use Rattle.layout.specs.Answers.{detail};
ghost use Rattle.wording.specs.Pages.{page, write};
ghost use Rattle.desk.specs.States.{released, in_state};
ghost use Rattle.state_sheets.specs.Signed.{review_said, release_said, releases_said};

use desk::RELEASED;
use layout::{Answer, Reply, VertexIndex};
use wording::{put_form, word_at};

// The line of a review, by the state before.
fn put_review(x: u64, v: VertexIndex, out: &mut [u8], at: usize) -> usize
    ensures { page out.new result ≡ write (review_said x v.0) (page out.old at) }
{
    if x == 0 {
        return put_form(out, at, b"tube A reviewed\n", &[v.0], b"");
    }
    if x == 1 {
        return put_form(out, at, b"tube A is reviewed already\n", &[v.0], b"");
    }
    put_form(out, at, b"tube A is released already\n", &[v.0], b"")
}

// The sheet of a review; the state before is that of an answer.
pub fn say_review(plain: bool, state: Answer, v: VertexIndex, out: &mut [u8], at: usize) -> usize
    ensures { page out.new result ≡ write (cond plain [] (review_said (detail state) v.0)) (page out.old at) }
{
    if plain {
        return at;
    }
    let reply = Reply::from(state);
    put_review(reply.detail, v, out, at)
}

// Whether a tube is released.
fn is_released(t: &[u32], s: &[u32], v: VertexIndex) -> bool
    requires formed { Formed limit t.now }
    requires s_len { length s.now ≡ vertex_limit }
    ensures { result ≡ in_state (read limit t.now) s.now released v.0 }
{
    let f = find::find_vertex(t, v);
    match f {
        None => false,
        Some(i) => word_at(s, i) == RELEASED,
    }
}

// The line of one release; s are the states before.
fn put_release(t: &[u32], s: &[u32], v: VertexIndex, out: &mut [u8], at: usize) -> usize
    requires formed { Formed limit t.now }
    requires s_len { length s.now ≡ vertex_limit }
    ensures { page out.new result ≡ write (release_said (read limit t.now) s.now v.0) (page out.old at) }
{
    if is_released(t, s, v) {
        return put_form(out, at, b"tube A is released already\n", &[v.0], b"");
    }
    put_form(out, at, b"tube A released\n", &[v.0], b"")
}

// The lines of the releases, in their order.
fn put_releases(t: &[u32], s: &[u32], list: &[u32], out: &mut [u8], at: usize) -> usize
    requires formed { Formed limit t.now }
    requires s_len { length s.now ≡ vertex_limit }
    ensures { page out.new result ≡ write (releases_said (read limit t.now) s.now list.now) (page out.old at) }
{
    let mut next = at;
    for i in 0..list.len() {
        next = put_release(t, s, VertexIndex(list[i]), out, next);
    }
    next
}

// The sheet of releases; s are the states before.
pub fn say_releases(
    plain: bool,
    t: &[u32],
    s: &[u32],
    list: &[u32],
    out: &mut [u8],
    at: usize,
) -> usize
    requires formed { Formed limit t.now }
    requires s_len { length s.now ≡ vertex_limit }
    ensures { page out.new result ≡ write (cond plain [] (releases_said (read limit t.now) s.now list.now)) (page out.old at) }
{
    if plain {
        return at;
    }
    put_releases(t, s, list, out, at)
}
