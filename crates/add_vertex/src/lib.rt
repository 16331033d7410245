// Adding a vertex.
#![tactic(auto)]

ghost use Rattle.std.specs.Prelude.{◌≡◌, ◌<◌, length};
ghost use Rattle.layout.specs.Layout.{limit, vertex_limit, size, read};
ghost use Rattle.layout.specs.Inner.{Formed};
ghost use Rattle.layout.specs.Answers.{on_formed, result_of};
ghost use Rattle.edits.specs.Results.{last_number, add_vertex_result};
ghost use Rattle.edits.specs.Records.{put_vertex};

use edits::records::LAST_NUMBER;
use layout::{Answer, Refusal};

// Stores a vertex of number x at place n, and counts it.
fn put_vertex(t: &mut [u32], n: usize, x: u32, weight: u32)
    requires { (length t.old ≡ size limit) × ((n < vertex_limit) × (x < last_number)) }
    ensures { t.new ≡ put_vertex n x weight t.old }
{
    t[layout::VERTICES_AT + n * layout::VERTEX_SIZE] = x;
    t[layout::VERTICES_AT + n * layout::VERTEX_SIZE + 1] = weight;
    t[0] = x + 1;
    t[2] = (n + 1) as u32;
}

// The addition, to a well-formed table.
fn add_formed(t: &mut [u32], weight: u32) -> Answer
    requires { Formed limit t.old }
    ensures { result_of result t.new ≡ add_vertex_result weight t.old (read limit t.old) }
{
    let n = layout::vertex_count(t);
    if layout::VERTEX_LIMIT <= n {
        return Err(Refusal::Full);
    }
    let x = layout::next_vertex(t);
    if x == LAST_NUMBER {
        return Err(Refusal::NumbersSpent);
    }
    put_vertex(t, n, x, weight);
    Ok(x as usize)
}

// Adds a vertex with the next number, which the answer tells.
pub fn add_vertex(t: &mut [u32], weight: u32) -> Answer
    ensures { result_of result t.new ≡ on_formed t.old t.old (add_vertex_result weight t.old) }
{
    if !well_formed::well_formed(t) {
        return Err(Refusal::NotWellFormed);
    }
    add_formed(t, weight)
}
