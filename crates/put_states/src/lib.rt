// The states written as a text.
#![tactic(auto)]

ghost use Rattle.std.specs.Prelude.{◌≡◌, ◌<◌, length};
ghost use Rattle.lists.specs.Lists.{word_at};
ghost use Rattle.layout.specs.Content.{live_vertices};
ghost use Rattle.layout.specs.Layout.{limit, size, vertex_limit, vertex_at, read};
ghost use Rattle.layout.specs.Inner.{Formed};
ghost use Rattle.wording.specs.Pages.{page, write};
ghost use Rattle.states_text.specs.StatesText.{state_word, state_line, line_for, states_text};

use desk::{RELEASED, WAITING};
use wording::{put_byte, put_number, put_text};

fn put_word(out: &mut [u8], at: usize, x: u32) -> usize
    ensures { page out.new result ≡ write (state_word x) (page out.old at) }
{
    if x == RELEASED {
        return put_text(out, at, b"released ");
    }
    put_text(out, at, b"reviewed ")
}

// The line of vertex v in state x.
pub fn put_state(out: &mut [u8], at: usize, x: u32, v: u64) -> usize
    ensures { page out.new result ≡ write (state_line x v) (page out.old at) }
{
    let a = put_word(out, at, x);
    let b = put_number(out, a, v);
    put_byte(out, b, b'\n')
}

// The same, but no line for a vertex that waits.
fn put_for(out: &mut [u8], at: usize, x: u32, v: u64) -> usize
    ensures { page out.new result ≡ write (line_for x v) (page out.old at) }
{
    if x == WAITING {
        return at;
    }
    put_state(out, at, x, v)
}

// The line of the vertex in record i.
fn put_record(t: &[u32], s: &[u32], i: usize, out: &mut [u8], at: usize) -> usize
    requires { (length t.now ≡ size limit) × (length s.now ≡ vertex_limit) × (i < vertex_limit) }
    ensures { page out.new result ≡ write (line_for (word_at s.now i) (vertex_at t.now i).number) (page out.old at) }
{
    put_for(out, at, s[i], layout::vertex_number(t, i) as u64)
}

// The lines of the table's vertices.
pub fn put_states(t: &[u32], s: &[u32], out: &mut [u8], at: usize) -> usize
    requires formed { Formed limit t.now }
    requires s_len { length s.now ≡ vertex_limit }
    ensures { page out.new result ≡ write (states_text (live_vertices (read limit t.now)) s.now) (page out.old at) }
{
    let n = layout::vertex_count(t);
    let mut next = at;
    for i in 0..n {
        next = put_record(t, s, i, out, next);
    }
    next
}
