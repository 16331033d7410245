// The marked records taken out of a table, and the gaps closed once. `old` is the table as it stood: it is read, and t is written.
#![tactic(auto)]

ghost use Rattle.std.specs.Prelude.{◌≡◌, ◌+◌, ◌<◌, ◌≤◌, length};
ghost use Rattle.std.proofs.Math.Seq.{paste};
ghost use Rattle.layout.specs.Layout.{limit, hyperedge_count, read, words};
ghost use Rattle.layout.specs.Inner.{Formed};
ghost use Rattle.withdraw_marked.specs.Sparing.{unmarked_of};
ghost use Rattle.withdraw_marked.specs.Sifting.{member_spared, members_spared, HyperedgesSifted, sifted_table};

use edits::records::{end_record, store};
use edits::shift::clear_words;
use layout::VertexIndex;
use sift_vertices::sift_vertices;

// The vertex has no mark in its record's place, or is not live.
fn is_spared(old: &[u32], vertices: &[bool; 256], x: u32) -> bool
    requires { Formed limit old.now }
    ensures { result ≡ member_spared vertices.now old.now x }
{
    let f = find::find_vertex(old, VertexIndex(x));
    match f {
        None => true,
        Some(k) => !vertices[k],
    }
}

// Stores those of the list that have no mark from `to` on, and says how many.
fn keep_spared(t: &mut [u32], old: &[u32], vertices: &[bool; 256], list: &[u32], to: usize) -> usize
    requires formed { Formed limit old.now }
    requires list_in_bounds { to + length list.now ≤ length t.old }
    ensures { (result ≡ length (members_spared vertices.now old.now list.now)) × (t.new ≡ paste t.old to (members_spared vertices.now old.now list.now) result) }
{
    let mut c = 0;
    for i in 0..list.len() {
        let x = list[i];
        if is_spared(old, vertices, x) {
            t[to + c] = x;
            c += 1;
        }
    }
    c
}

// Writes what is left of hyperedge record j to record k's place, and says the next place: k again where nothing is left.
fn sift_record(
    t: &mut [u32],
    old: &[u32],
    vertices: &[bool; 256],
    hyperedges: &[bool; 192],
    j: usize,
    k: usize,
) -> usize
    requires formed { Formed limit old.now }
    requires j_bound { j < hyperedge_count old.now }
    requires hyperedges_sifted { HyperedgesSifted vertices.now hyperedges.now old.now j k t.old }
    ensures { HyperedgesSifted vertices.now hyperedges.now old.now (j + 1) result t.new }
{
    if hyperedges[j] {
        return k;
    }
    let list = layout::members_formed(old, j);
    let a = layout::HYPEREDGES_AT + k * layout::RECORD_SIZE;
    let c = keep_spared(t, old, vertices, list, a + 3);
    if c == 0 {
        return k;
    }
    let x = layout::hyperedge_number(old, j);
    let w = layout::hyperedge_weight(old, j);
    end_record(t, k, x, w, c);
    k + 1
}

// Writes what is left of the hyperedge records one after the other, clears what is behind them, and counts them.
fn sift_hyperedges(t: &mut [u32], old: &[u32], vertices: &[bool; 256], hyperedges: &[bool; 192])
    requires formed { Formed limit old.now }
    requires t_value { t.old ≡ old.now }
    ensures { t.new ≡ words limit (sifted_table vertices.now hyperedges.now old.now) }
{
    let m = layout::hyperedge_count(old);
    let mut k = 0;
    for j in 0..m {
        k = sift_record(t, old, vertices, hyperedges, j, k);
    }
    let a = layout::HYPEREDGES_AT + k * layout::RECORD_SIZE;
    clear_words(t, a, layout::SIZE - a);
    t[3] = k as u32;
}

// Takes out the marked vertices, from every list too, and the marked hyperedges; drops the lists that are emptied.
pub fn withdraw_marked(t: &mut [u32], vertices: &[bool; 256], hyperedges: &[bool; 192])
    requires { Formed limit t.old }
    ensures { t.new ≡ words limit (unmarked_of vertices.now hyperedges.now (read limit t.old)) }
{
    let mut old = [0u32; layout::SIZE];
    store(&mut old, 0, t);
    sift_hyperedges(t, &old, vertices, hyperedges);
    sift_vertices(t, &old, vertices);
}
