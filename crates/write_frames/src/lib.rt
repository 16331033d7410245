// A table written as text.
#![tactic(auto)]

ghost use Rattle.std.specs.Prelude.{◌≡◌, ◌+◌, ◌*◌, ◌<◌, ◌≤◌, length};
ghost use Rattle.lists.specs.Lists.{tab, flat};
ghost use Rattle.layout.specs.Layout.{limit, vertex_limit, size, hyperedge_count, vertex_at, hyperedge_at, read};
ghost use Rattle.layout.specs.Inner.{Formed};
ghost use Rattle.layout.specs.Answers.{result_of, on_formed};
ghost use Rattle.layout.specs.Content.{vertex_of};
ghost use Rattle.frames.specs.Frames.{byte_values, vertex_line, hyperedge_line, frame_text, vertex_length, hyperedge_length, write_result};
ghost use Rattle.frames.specs.Put.{Put};
ghost use Rattle.frames.specs.Pairs.{Pairs};

use frame_lines::{number_sum, put_end, put_head, put_record};
use frames::{HEAD_LENGTH, HYPEREDGE_LENGTH, MEMBER_LENGTH, VERTEX_LENGTH, byte_pairs};
use hyperedge_frames::put_hyperedges;
use layout::{Answer, Refusal};

fn put_vertex(text: &mut [u8], at: usize, pairs: &[u8; 512], number: u32, weight: u32) -> usize
    requires pairs { Pairs byte_values pairs.now }
    requires vertex_length_in_bounds { at + vertex_length ≤ length text.old }
    ensures { Put at vertex_length (vertex_line (vertex_of number weight)) text.old text.new result }
{
    let a = put_record(text, at, pairs, 1, number, weight);
    put_end(text, a, pairs, 1 + number_sum(number) + number_sum(weight))
}

fn put_vertex_at(text: &mut [u8], at: usize, pairs: &[u8; 512], t: &[u32], i: usize) -> usize
    requires pairs { Pairs byte_values pairs.now }
    requires t_len { (length t.now ≡ size limit) × (i < vertex_limit) }
    requires vertex_length_in_bounds { at + vertex_length ≤ length text.old }
    ensures { Put at vertex_length (vertex_line (vertex_at t.now i)) text.old text.new result }
{
    put_vertex(
        text,
        at,
        pairs,
        layout::vertex_number(t, i),
        layout::vertex_weight(t, i),
    )
}

fn put_vertices(text: &mut [u8], at: usize, pairs: &[u8; 512], t: &[u32], n: usize) -> usize
    requires pairs { Pairs byte_values pairs.now }
    requires t_len { (length t.now ≡ size limit) × (n ≤ vertex_limit) }
    requires vertex_length_in_bounds { at + n * vertex_length ≤ length text.old }
    ensures { Put at (n * vertex_length) (flat vertex_line (tab (vertex_at t.now) n)) text.old text.new result }
{
    let mut next = at;
    for i in 0..n {
        next = put_vertex_at(text, next, pairs, t, i);
    }
    next
}

fn hyperedge_length(t: &[u32], j: usize) -> usize
    requires formed { Formed limit t.now }
    requires j_bound { j < hyperedge_count t.now }
    ensures { (result ≡ length (hyperedge_line (hyperedge_at limit t.now j))) × (result ≤ hyperedge_length limit) }
{
    let members = layout::members_formed(t, j);
    HYPEREDGE_LENGTH + members.len() * MEMBER_LENGTH
}

fn hyperedges_length(t: &[u32], m: usize) -> usize
    requires formed { Formed limit t.now }
    requires m_value { m ≡ hyperedge_count t.now }
    ensures { (result ≡ length (flat hyperedge_line (tab (hyperedge_at limit t.now) m))) × (result ≤ m * hyperedge_length limit) }
{
    let mut sum = 0;
    for j in 0..m {
        sum += hyperedge_length(t, j);
    }
    sum
}

fn text_length(t: &[u32]) -> usize
    requires { Formed limit t.now }
    ensures { result ≡ length (frame_text (read limit t.now)) }
{
    let n = layout::vertex_count(t);
    let m = layout::hyperedge_count(t);
    HEAD_LENGTH + n * VERTEX_LENGTH + hyperedges_length(t, m)
}

fn put_text(text: &mut [u8], t: &[u32]) -> usize
    requires formed { Formed limit t.now }
    requires t_in_bounds { length (frame_text (read limit t.now)) ≤ length text.old }
    ensures { Put 0 (length (frame_text (read limit t.now))) (frame_text (read limit t.now)) text.old text.new result }
{
    let n = layout::vertex_count(t);
    let m = layout::hyperedge_count(t);
    let pairs = byte_pairs();
    let a = put_head(
        text,
        &pairs,
        layout::next_vertex(t),
        layout::next_hyperedge(t),
        n,
        m,
    );
    let b = put_vertices(text, a, &pairs, t, n);
    put_hyperedges(text, b, &pairs, t, m)
}

fn write_formed(t: &[u32], text: &mut [u8]) -> Answer
    requires { Formed limit t.now }
    ensures { result_of result text.new ≡ write_result text.old (read limit t.now) }
{
    let k = text_length(t);
    if text.len() < k {
        return Err(Refusal::NoRoom(k));
    }
    put_text(text, t);
    Ok(k)
}

// Writes the table's frame text from the front of the lent bytes.
pub fn write_frames(t: &[u32], text: &mut [u8]) -> Answer
    ensures { result_of result text.new ≡ on_formed t.now text.old (write_result text.old) }
{
    if !well_formed::well_formed(t) {
        return Err(Refusal::NotWellFormed);
    }
    write_formed(t, text)
}
