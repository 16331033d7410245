// Tables made by recorded edits.
#![tactic(auto)]

ghost use Rattle.std.specs.Prelude.{◌≡◌};
ghost use Rattle.replay_tables.specs.Firsts.{byte_of, is_kind};
ghost use Rattle.replay.specs.Replayed.{left_by, vertex_added, hyperedge_added, hyperedge_updated, vertex_removed, hyperedge_removed, vertices_merged, table_summed, end_at, record_at};

use add_hyperedge::add_hyperedge;
use add_vertex::add_vertex;
use hypergraph::clear;
use layout::{HyperedgeIndex, VertexIndex};
use merge_vertices::merge_vertices;
use remove_hyperedge::remove_hyperedge;
use remove_vertex::remove_vertex;
use replay::tally::{all, compared, count, line};
use replay_judge::{answer, at_most, sum, sum_of_bytes, summed};
use replay_reading::{LOST, WHOLE, byte, eight, file, four, list, word};
use std::io;
use std::rt::Files;
use update_hyperedge_vertices::update_hyperedge_vertices;

// The kinds of the records that build a table, each by its place in the tally, and the last record.
#[derive(Clone, Copy, PartialEq, Eq, Debug)]
enum Kind {
    AddVertex,
    AddHyperedge,
    UpdateHyperedgeVertices,
    RemoveVertex,
    RemoveHyperedge,
    Clear,
    Table,
    MergeVertices,
    End,
}

const NAMES: [(&[u8], usize); 8] = [
    (b"add_vertex", Kind::AddVertex as usize),
    (b"add_hyperedge", Kind::AddHyperedge as usize),
    (
        b"update_hyperedge_vertices",
        Kind::UpdateHyperedgeVertices as usize,
    ),
    (b"remove_vertex", Kind::RemoveVertex as usize),
    (b"merge_vertices", Kind::MergeVertices as usize),
    (b"remove_hyperedge", Kind::RemoveHyperedge as usize),
    (b"clear", Kind::Clear as usize),
    (b"table by its sum", Kind::Table as usize),
];

impl Kind {
    // The kind of a record, by its first byte.
    fn of(byte: u32) -> Option<Self>
        ensures { is_kind byte result }
    {
        match byte {
            1 => Some(Kind::AddVertex),
            2 => Some(Kind::AddHyperedge),
            3 => Some(Kind::UpdateHyperedgeVertices),
            4 => Some(Kind::RemoveVertex),
            5 => Some(Kind::RemoveHyperedge),
            6 => Some(Kind::Clear),
            7 => Some(Kind::Table),
            9 => Some(Kind::MergeVertices),
            255 => Some(Kind::End),
            _ => None,
        }
    }
}

fn vertex_added(s: &[u8], at: usize, t: &mut [u32], tally: &mut [u32]) -> usize
    ensures { left_by result t.new tally.new ≡ vertex_added s.now at t.old tally.old }
{
    let w = word(s, at);
    answer(
        s,
        w.at,
        add_vertex(t, w.value),
        Kind::AddVertex as usize,
        tally,
    )
}

fn hyperedge_added(s: &[u8], at: usize, t: &mut [u32], tally: &mut [u32]) -> usize
    ensures { left_by result t.new tally.new ≡ hyperedge_added s.now at t.old tally.old }
{
    let mut members = [0u32; layout::MEMBER_LIMIT];
    let l = list(s, at, &mut members);
    let n = l.count;
    let w = word(s, l.at);
    let a = add_hyperedge(t, &members[..n], w.value);
    answer(s, w.at, a, Kind::AddHyperedge as usize, tally)
}

fn hyperedge_updated(s: &[u8], at: usize, t: &mut [u32], tally: &mut [u32]) -> usize
    ensures { left_by result t.new tally.new ≡ hyperedge_updated s.now at t.old tally.old }
{
    let mut members = [0u32; layout::MEMBER_LIMIT];
    let e = word(s, at);
    let l = list(s, e.at, &mut members);
    let n = l.count;
    let a = update_hyperedge_vertices(t, HyperedgeIndex(e.value), &members[..n]);
    answer(s, l.at, a, Kind::UpdateHyperedgeVertices as usize, tally)
}

fn vertex_removed(s: &[u8], at: usize, t: &mut [u32], tally: &mut [u32]) -> usize
    ensures { left_by result t.new tally.new ≡ vertex_removed s.now at t.old tally.old }
{
    let v = word(s, at);
    answer(
        s,
        v.at,
        remove_vertex(t, VertexIndex(v.value)),
        Kind::RemoveVertex as usize,
        tally,
    )
}

fn hyperedge_removed(s: &[u8], at: usize, t: &mut [u32], tally: &mut [u32]) -> usize
    ensures { left_by result t.new tally.new ≡ hyperedge_removed s.now at t.old tally.old }
{
    let e = word(s, at);
    answer(
        s,
        e.at,
        remove_hyperedge(t, HyperedgeIndex(e.value)),
        Kind::RemoveHyperedge as usize,
        tally,
    )
}

fn vertices_merged(s: &[u8], at: usize, t: &mut [u32], tally: &mut [u32]) -> usize
    ensures { left_by result t.new tally.new ≡ vertices_merged s.now at t.old tally.old }
{
    let v = word(s, at);
    let w = word(s, v.at);
    answer(
        s,
        w.at,
        merge_vertices(t, VertexIndex(v.value), VertexIndex(w.value)),
        Kind::MergeVertices as usize,
        tally,
    )
}

// All words of the table, by their sum.
fn table(s: &[u8], at: usize, t: &[u32], tally: &mut [u32]) -> usize
    ensures { left_by result t.now tally.new ≡ table_summed s.now at t.now tally.old }
{
    let x = eight(s, at);
    count(tally, Kind::Table as usize, x.value == sum(t, t.len()));
    x.at
}

// The last record says how many answers there are and the sum of all bytes before that sum, and nothing follows it.
fn end(s: &[u8], at: usize, tally: &[u32]) -> usize
    ensures { result ≡ end_at s.now at tally.now }
{
    let n = four(s, at);
    let x = summed(s, n.at, sum_of_bytes(s, at_most(n.at, s.len())));
    if !x.same {
        return LOST;
    }
    if x.at != s.len() {
        return LOST;
    }
    if n.value != compared(tally) {
        return LOST;
    }
    WHOLE
}

fn by_kind(s: &[u8], kind: Kind, at: usize, t: &mut [u32], tally: &mut [u32]) -> usize
    ensures { left_by result t.new tally.new ≡ record_at s.now (byte_of kind) at t.old tally.old }
{
    match kind {
        Kind::AddVertex => vertex_added(s, at, t, tally),
        Kind::AddHyperedge => hyperedge_added(s, at, t, tally),
        Kind::UpdateHyperedgeVertices => hyperedge_updated(s, at, t, tally),
        Kind::RemoveVertex => vertex_removed(s, at, t, tally),
        Kind::RemoveHyperedge => hyperedge_removed(s, at, t, tally),
        Kind::Clear => answer(s, at, clear(t), Kind::Clear as usize, tally),
        Kind::Table => table(s, at, t, tally),
        Kind::MergeVertices => vertices_merged(s, at, t, tally),
        Kind::End => end(s, at, tally),
    }
}

// A record that builds a table, or the last one.
pub fn record(s: &[u8], kind: u32, at: usize, t: &mut [u32], tally: &mut [u32]) -> usize
    ensures { left_by result t.new tally.new ≡ record_at s.now kind at t.old tally.old }
{
    match Kind::of(kind) {
        Some(known) => by_kind(s, known, at, t, tally),
        None => LOST,
    }
}

fn lines(rt: &impl Print, names: &[(&[u8], usize)], tally: &[u32]) -> io::Result<()> {
    for &(name, f) in names {
        line(rt, name, f, tally)?;
    }
    Ok(())
}

// The last line: whether the records were read to their end.
fn say_end(rt: &impl Print, at: usize) -> io::Result<()> {
    if at == WHOLE {
        return println!(rt; "the records are whole");
    }
    println!(rt; "the records are DAMAGED")
}

// Every record in turn, and the place after the last one that was read: `own` reads one of a kind that is the program's own, whose rest
// stands at the place that it is handed, and answers the place after it, or none for another kind. Every record has a byte, so there are
// no more records than bytes.
fn records<F: FnMut(&[u8], u32, usize, &[u32], &mut [u32]) -> Option<usize>>(
    s: &[u8],
    t: &mut [u32],
    tally: &mut [u32],
    mut own: F,
) -> usize
    requires { F.IsAlwaysCallable own }
{
    let mut at = 0;
    for _ in 0..s.len() {
        if at >= s.len() {
            break;
        }
        let first = byte(s, at);
        at = match own(s, first.value, first.at, t, tally) {
            Some(after) => after,
            None => record(s, first.value, first.at, t, tally),
        };
    }
    at
}

fn run<F: FnMut(&[u8], u32, usize, &[u32], &mut [u32]) -> Option<usize>>(
    rt: &impl Print,
    s: &[u8],
    names: &[(&[u8], usize)],
    own: F,
) -> io::Result<()>
    requires { F.IsAlwaysCallable own }
{
    let mut t = [0u32; layout::SIZE];
    let mut tally = [0u32; 64];
    let end = records(s, &mut t, &mut tally, own);
    lines(rt, &NAMES, &tally)?;
    lines(rt, names, &tally)?;
    all(rt, &tally)?;
    say_end(rt, end)
}

// Replays the records of the file `cases`. `names` has the program's own functions, each with its place in the tally.
pub fn replay<F: FnMut(&[u8], u32, usize, &[u32], &mut [u32]) -> Option<usize>>(
    rt: &(impl Files + Print + Eprint),
    names: &[(&[u8], usize)],
    own: F,
) -> io::Result<()>
    requires { F.IsAlwaysCallable own }
{
    let mut bytes = [0u8; 262144];
    let n = file(rt, &mut bytes)?;
    run(rt, &bytes[..n], names, own)
}
