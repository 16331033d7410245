// The states read from a text.
#![tactic(auto)]

ghost use Rattle.std.specs.Prelude.{◌≡◌, ◌<◌, length};
ghost use Rattle.lists.specs.Inner.{blank};
ghost use Rattle.layout.specs.Content.{live_vertices, position};
ghost use Rattle.layout.specs.Layout.{limit, vertex_limit, read};
ghost use Rattle.layout.specs.Inner.{Formed};
ghost use Rattle.layout.specs.Answers.{result_of, on_formed};
ghost use Rattle.states_text.specs.Reading.{read_states_result};
ghost use Rattle.read_states.specs.Noting.{LineAt, record_of, noted, LinesRead};

use desk::WAITING;
use layout::{Answer, Refusal, VertexIndex};
use state_lines::judge;

// The place behind the line that begins at p: behind its line feed, or the text's end.
fn line_end(text: &[u8], p: usize) -> usize
    requires { p < length text.now }
    ensures { LineAt text.now p result }
{
    for i in p..text.len() {
        if text[i] == b'\n' {
            return i + 1;
        }
    }
    text.len()
}

// The record of vertex v, or 256 where it is not live.
fn record_of(t: &[u32], v: u64) -> usize
    requires formed { Formed limit t.now }
    requires v_bound { v < 4294967296 }
    ensures { result ≡ record_of (position v (live_vertices (read limit t.now))) }
{
    find::find_vertex(t, VertexIndex(v as u32)).unwrap_or(256)
}

// Notes the state of vertex v where it is live.
fn note(t: &[u32], v: u64, x: u32, ss: &mut [u32])
    requires formed { Formed limit t.now }
    requires v_bound { (v < 4294967296) × (length ss.old ≡ vertex_limit) }
    ensures { ss.new ≡ noted (position v (live_vertices (read limit t.now))) x ss.old }
{
    let i = record_of(t, v);
    if layout::VERTEX_LIMIT <= i {
        return;
    }
    ss[i] = x;
}

// Reads every line: the faulty line, or 0, and then the states.
fn read_lines(t: &[u32], text: &[u8], ss: &mut [u32]) -> usize
    requires formed { Formed limit t.now }
    requires ss_value { ss.old ≡ blank vertex_limit }
    ensures { LinesRead (read limit t.now) text.now ss.new result }
{
    let mut p = 0;
    let mut low: u64 = 0;
    let mut k = 1;
    // It counts no index: the text is walked line by line, each from where the one before it ends.
    while p < text.len() {
        let end = line_end(text, p);
        let said = judge(&text[p..end], low);
        let x = said.state;
        let v = said.number;
        if x == WAITING {
            return k;
        }
        note(t, v, x, ss);
        p = end;
        low = v + 1;
        k += 1;
    }
    0
}

fn copy_states(s: &mut [u32], ss: &[u32])
    requires { length s.old ≡ length ss.now }
    ensures { s.new ≡ ss.now }
{
    s.copy_from_slice(ss);
}

fn read_formed(t: &[u32], text: &[u8], s: &mut [u32]) -> Answer
    requires { Formed limit t.now }
    ensures { result_of result s.new ≡ read_states_result text.now s.old (read limit t.now) }
{
    if s.len() != layout::VERTEX_LIMIT {
        return Err(Refusal::NotWellFormed);
    }
    let mut ss = [0u32; 256];
    let line = read_lines(t, text, &mut ss);
    if line != 0 {
        return Err(Refusal::BadText(line));
    }
    copy_states(s, &ss);
    Ok(0)
}

// Reads the states of the table's vertices from a text: 12 with the first faulty line, which changes no word.
pub fn read_states(t: &[u32], text: &[u8], s: &mut [u32]) -> Answer
    ensures { result_of result s.new ≡ on_formed t.now s.old (read_states_result text.now s.old) }
{
    if !well_formed::well_formed(t) {
        return Err(Refusal::NotWellFormed);
    }
    read_formed(t, text, s)
}
