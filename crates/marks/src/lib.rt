// One mark for each vertex record, and the listing of the marked vertices.
#![tactic(auto)]

ghost use Rattle.std.specs.Prelude.{◌≡◌, map, ◌≤◌, length};
ghost use Rattle.lists.specs.Tests.{count, chosen};
ghost use Rattle.lists.specs.Lists.{over, word_at};
ghost use Rattle.layout.specs.Content.{live_vertices, position};
ghost use Rattle.layout.specs.Layout.{limit, vertex_limit, vertex_count, read};
ghost use Rattle.layout.specs.Inner.{Formed};
ghost use Rattle.layout.specs.Answers.{result_of, listed};
ghost use Rattle.marks.specs.Marks.{is_marked, marking, marked};

use layout::{Answer, Refusal, VertexIndex};

// One mark more: the record of vertex x, where it is live.
pub fn mark(t: &[u32], x: u32, marks: &mut [bool; 256])
    requires { Formed limit t.now }
    ensures { marks.new ≡ marking (position x (live_vertices (read limit t.now))) marks.old }
{
    let f = find::find_vertex(t, VertexIndex(x));
    match f {
        None => {}
        Some(i) => marks[i] = true,
    }
}

// How many of the first n records are marked.
pub fn count_marked(marks: &[bool; 256], n: usize) -> usize
    requires { n ≤ vertex_limit }
    ensures { result ≡ count (is_marked marks.now) n }
{
    let mut c = 0;
    for k in 0..n {
        if marks[k] {
            c += 1;
        }
    }
    c
}

// Writes the numbers of the marked ones of the n live vertices from the front of out.
pub fn write_marked(t: &[u32], n: usize, marks: &[bool; 256], out: &mut [u32])
    requires formed { Formed limit t.now }
    requires n_value { (n ≡ vertex_count t.now) × (count (is_marked marks.now) n ≤ length out.old) }
    ensures { out.new ≡ over (map (word_at (live_vertices (read limit t.now))) (chosen (is_marked marks.now) n)) out.old }
{
    let mut c = 0;
    for k in 0..n {
        if marks[k] {
            out[c] = layout::vertex_number(t, k);
            c += 1;
        }
    }
}

// Lists the marked vertices, ascending.
pub fn list_marked(t: &[u32], marks: &[bool; 256], out: &mut [u32]) -> Answer
    requires { Formed limit t.now }
    ensures { result_of result out.new ≡ listed (marked marks.now (live_vertices (read limit t.now))) out.old }
{
    let n = layout::vertex_count(t);
    let c = count_marked(marks, n);
    if out.len() < c {
        return Err(Refusal::NoRoom(c));
    }
    write_marked(t, n, marks, out);
    Ok(c)
}
