// The records of a tray, judged one after the other against a table, and a mark on what each names.
#![tactic(auto)]

ghost use Rattle.std.specs.Prelude.{◌≡◌};
ghost use Rattle.layout.specs.Content.{live_vertices, live_hyperedges, position};
ghost use Rattle.layout.specs.Layout.{limit, read};
ghost use Rattle.layout.specs.Inner.{Formed};
ghost use Rattle.tray_marks.specs.Marking.{OpenFormed, opened, refused_at, vertex_marked, hyperedge_marked, judged};

use layout::{HyperedgeIndex, VertexIndex};
use trays::{HYPEREDGE_KIND, VERTEX_KIND, Withdrawal};

// What is known of a tray after some of its records: whether the table is well formed, whether a record is faulty and the place of the first
// faulty one, and the marks on the vertex and hyperedge records that are named.
#[derive(Clone, Copy)]
pub struct Tray {
    pub formed: bool,
    pub faulty: bool,
    pub place: usize,
    pub vertices: [bool; 256],
    pub hyperedges: [bool; 192],
}

// A tray before its first record.
pub fn open_tray(t: &[u32]) -> Tray
    ensures { result ≡ opened t.now }
{
    let formed = well_formed::well_formed(t);
    Tray {
        formed,
        faulty: false,
        place: 0,
        vertices: [false; 256],
        hyperedges: [false; 192],
    }
}

// One record more, the one at place i.
pub fn judge_record(t: &[u32], tray: Tray, i: usize, w: Withdrawal) -> Tray
    requires { OpenFormed tray t.now }
    ensures { result ≡ judged t.now tray i w }
{
    if !tray.formed {
        return tray;
    }
    if tray.faulty {
        return tray;
    }
    if w.kind == VERTEX_KIND {
        return mark_vertex(t, tray, i, w.number);
    }
    if w.kind == HYPEREDGE_KIND {
        return mark_hyperedge(t, tray, i, w.number);
    }
    refused_at(tray, i)
}

// The vertex x, which the record at place i names: marked, or the record is faulty.
fn mark_vertex(t: &[u32], tray: Tray, i: usize, x: u32) -> Tray
    requires { Formed limit t.now }
    ensures { result ≡ vertex_marked (position x (live_vertices (read limit t.now))) tray i }
{
    let Some(k) = find::find_vertex(t, VertexIndex(x)) else {
        return refused_at(tray, i);
    };
    let mut marked = tray;
    marked.vertices[k] = true;
    marked
}

// The same of the hyperedge x.
fn mark_hyperedge(t: &[u32], tray: Tray, i: usize, x: u32) -> Tray
    requires { Formed limit t.now }
    ensures { result ≡ hyperedge_marked (position x (live_hyperedges (read limit t.now))) tray i }
{
    let Some(k) = find::find_hyperedge(t, HyperedgeIndex(x)) else {
        return refused_at(tray, i);
    };
    let mut marked = tray;
    marked.hyperedges[k] = true;
    marked
}

// The record at place i is faulty.
fn refused_at(tray: Tray, i: usize) -> Tray
    ensures { result ≡ refused_at tray i }
{
    let mut refused = tray;
    refused.faulty = true;
    refused.place = i;
    refused
}
