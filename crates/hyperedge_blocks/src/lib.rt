// What a listing has of each hyperedge: its number for each place of a step, or its members.
#![tactic(auto)]

ghost use Rattle.std.specs.Prelude.{◌≡◌, ◌∷◌, ◌+◌, ◌<◌, ◌≤◌, length, replicate};
ghost use Rattle.lists.specs.Lists.{over};
ghost use Rattle.layout.specs.Layout.{limit, hyperedge_count, hyperedge_at, members_at, read};
ghost use Rattle.layout.specs.Inner.{Formed, step_at};
ghost use Rattle.layout.specs.Steps.{is_step};
ghost use Rattle.lookups.specs.Lookups.{places, held, block, listing};
ghost use Rattle.lookups.specs.State.{block_length};

use lookups::{Listing, holds};

// The step at place i is x to y. Both words are read, so that the compiler can take several places at a time.
fn is_step(ms: &[u32], i: usize, x: u32, y: u32) -> bool
    requires { i + 1 < length ms.now }
    ensures { result ≡ is_step x y (step_at ms.now i) }
{
    (ms[i] == x) & (ms[i + 1] == y)
}

// The places of a list at which the step is x to y.
fn step_places(ms: &[u32], x: u32, y: u32) -> usize
    ensures { result ≡ places (is_step x y) ms.now }
{
    let mut n: usize = 0;
    for i in 0..ms.len().saturating_sub(1) {
        if is_step(ms, i, x, y) {
            n += 1;
        }
    }
    n
}

// Writes x k times from the front of out.
fn repeat(x: u32, k: usize, out: &mut [u32])
    requires { k ≤ length out.old }
    ensures { out.new ≡ over (replicate k x) out.old }
{
    out[..k].fill(x);
}

// Writes a list from the front of out.
fn copy(xs: &[u32], out: &mut [u32])
    requires { length xs.now ≤ length out.old }
    ensures { out.new ≡ over xs.now out.old }
{
    for i in 0..xs.len() {
        out[i] = xs[i];
    }
}

// The length and the members of a record: a part of the table, where they lie.
fn counted_members(t: &[u32], j: usize) -> &[u32]
    requires formed { Formed limit t.now }
    requires j_bound { j < hyperedge_count t.now }
    ensures { result.now ≡ length (members_at limit t.now j) ∷ members_at limit t.now j }
{
    let n = layout::member_count(t, j);
    let a = layout::HYPEREDGES_AT + j * layout::RECORD_SIZE + 2;
    let e = a + (n + 1);
    &t[a..e]
}

// Writes a record's list, where it holds v, as length and members from the front of out; how many words.
fn write_held(t: &[u32], j: usize, v: u32, out: &mut [u32]) -> usize
    requires formed { Formed limit t.now }
    requires j_bound { (j < hyperedge_count t.now) × (length (held v (members_at limit t.now j)) ≤ length out.old) }
    ensures value { result ≡ length (held v (members_at limit t.now j)) }
    ensures out_after { out.new ≡ over (held v (members_at limit t.now j)) out.old }
{
    if !holds(layout::members_formed(t, j), v) {
        return 0;
    }
    let list = counted_members(t, j);
    copy(list, out);
    list.len()
}

// How many words record j has in the listing.
fn block_length(t: &[u32], j: usize, q: Listing) -> usize
    requires formed { Formed limit t.now }
    requires j_bound { j < hyperedge_count t.now }
    ensures { result ≡ block_length q (hyperedge_at limit t.now j) }
{
    match q {
        Listing::Connecting(x, y) => step_places(layout::members_formed(t, j), x, y),
        Listing::Weighing(w) => {
            if layout::hyperedge_weight(t, j) != w {
                return 0;
            }
            1
        }
        Listing::Holding(v) => {
            let ms = layout::members_formed(t, j);
            if !holds(ms, v) {
                return 0;
            }
            ms.len() + 1
        }
    }
}

// Writes what record j has in the listing from the front of out; how many words.
fn write_block(t: &[u32], j: usize, q: Listing, out: &mut [u32]) -> usize
    requires formed { Formed limit t.now }
    requires j_bound { (j < hyperedge_count t.now) × (block_length q (hyperedge_at limit t.now j) ≤ length out.old) }
    ensures value { result ≡ block_length q (hyperedge_at limit t.now j) }
    ensures out_after { out.new ≡ over (block q (hyperedge_at limit t.now j)) out.old }
{
    match q {
        Listing::Connecting(x, y) => {
            let k = step_places(layout::members_formed(t, j), x, y);
            repeat(layout::hyperedge_number(t, j), k, out);
            k
        }
        Listing::Weighing(w) => {
            if layout::hyperedge_weight(t, j) != w {
                return 0;
            }
            out[0] = layout::hyperedge_number(t, j);
            1
        }
        Listing::Holding(v) => write_held(t, j, v, out),
    }
}

pub fn count_blocks(t: &[u32], q: Listing) -> usize
    requires { Formed limit t.now }
    ensures { result ≡ length (listing q (read limit t.now)) }
{
    let m = layout::hyperedge_count(t);
    let mut n = 0;
    for j in 0..m {
        n += block_length(t, j, q);
    }
    n
}

pub fn write_blocks(t: &[u32], q: Listing, out: &mut [u32])
    requires formed { Formed limit t.now }
    requires t_in_bounds { length (listing q (read limit t.now)) ≤ length out.old }
    ensures { out.new ≡ over (listing q (read limit t.now)) out.old }
{
    let m = layout::hyperedge_count(t);
    let mut c = 0;
    for j in 0..m {
        let k = write_block(t, j, q, &mut out[c..]);
        c += k;
    }
}
