// What a draw takes: a hyperedge of a vertex, and another member of it.
#![tactic(auto)]

ghost use Rattle.std.specs.Prelude.{◌≡◌, ◌<◌, ◌≤◌, ◌^◌, length, get_or, take};
ghost use Rattle.layout.specs.Layout.{limit, vertex_limit, vertex_count, hyperedge_count, members_at};
ghost use Rattle.layout.specs.Inner.{Formed};
ghost use Rattle.walk.specs.Walk.{total_weight, is_first_other, other_members, to_one_of};
ghost use Rattle.walk.specs.Passes.{largest_word, Firsts, Listers, listers_of, records_at, Greater, TakenBy};

use walk::{Walker, greater, sample, xorshift};

fn place_of(b: u8) -> usize
    ensures { result ≡ b }
{
    b as usize
}

// The place of the k-th record that lists the vertex of record i.
fn lister(t: &[u32], rows: &[u8; 65536], counts: &[usize; 256], i: usize, k: usize) -> usize
    requires formed { Formed limit t.now }
    requires i_bound { (i < vertex_count t.now) × (k < length (listers_of t.now i)) × Listers t.now (hyperedge_count t.now) rows.now counts.now }
    ensures { (result ≡ get_or (listers_of t.now i) k 0) × (result < hyperedge_count t.now) }
{
    place_of(rows[i * layout::VERTEX_LIMIT + k])
}

fn wide(x: u32) -> u64
    ensures { (result ≡ x) × (result ≤ largest_word) }
{
    x as u64
}

// The total weight of the n records that list the vertex of record i.
fn total_weight(t: &[u32], rows: &[u8; 65536], counts: &[usize; 256], i: usize, n: usize) -> u64
    requires formed { Formed limit t.now }
    requires i_bound { (i < vertex_count t.now) × (n ≡ length (listers_of t.now i)) × Listers t.now (hyperedge_count t.now) rows.now counts.now }
    ensures { (result ≡ total_weight (records_at t.now (listers_of t.now i))) × (result ≤ 2 ^ 53) }
{
    let mut total = 0;
    for k in 0..n {
        let j = lister(t, rows, counts, i, k);
        total += wide(layout::hyperedge_weight(t, j));
    }
    total
}

// The first of the n records that list the vertex of record i whose running sum is greater than x, else the last.
fn first_greater(
    t: &[u32],
    rows: &[u8; 65536],
    counts: &[usize; 256],
    i: usize,
    n: usize,
    x: f64,
) -> usize
    requires formed { Formed limit t.now }
    requires i_bound { (i < vertex_count t.now) × (0 < n) × (n ≡ length (listers_of t.now i)) × Listers t.now (hyperedge_count t.now) rows.now counts.now }
    ensures { Greater t.now (listers_of t.now i) x result }
{
    let mut sum = 0;
    for k in 0..n {
        let j = lister(t, rows, counts, i, k);
        sum += wide(layout::hyperedge_weight(t, j));
        if greater(x, sum) {
            return j;
        }
    }
    lister(t, rows, counts, i, n - 1)
}

// Whether what stands at place p of record j's members is not v, and stands at no place before.
fn is_first_other(t: &[u32], firsts: &[bool; 65536], j: usize, ms: &[u32], v: u32, p: usize) -> bool
    requires formed { Formed limit t.now }
    requires j_bound { (j < hyperedge_count t.now) × (p < length ms.now) × (ms.now ≡ members_at limit t.now j) × Firsts t.now firsts.now }
    ensures { result ≡ is_first_other v ms.now p }
{
    if ms[p] == v {
        return false;
    }
    firsts[j * layout::VERTEX_LIMIT + p]
}

// The distinct other members of record j, in order of first place, in the first places of `found`.
fn list_others(t: &[u32], firsts: &[bool; 65536], j: usize, v: u32, found: &mut [u32; 256]) -> usize
    requires formed { Formed limit t.now }
    requires j_bound { (j < hyperedge_count t.now) × (length found.old ≡ vertex_limit) × Firsts t.now firsts.now }
    ensures { (take result found.new ≡ other_members v (members_at limit t.now j)) × (result ≡ length (other_members v (members_at limit t.now j))) }
{
    let ms = layout::members_formed(t, j);
    let mut c = 0;
    for p in 0..ms.len() {
        if is_first_other(t, firsts, j, ms, v, p) {
            found[c] = ms[p];
            c += 1;
        }
    }
    c
}

fn pick(found: &[u32; 256], k: usize) -> u32
    requires { k < vertex_limit }
    ensures { result ≡ get_or found.now k 0 }
{
    found[k]
}

// To a distinct other member of record j by a second draw; v stays where there is none.
pub fn to_one_of(t: &[u32], firsts: &[bool; 65536], j: usize, v: u32, state: u64) -> Walker
    requires formed { Formed limit t.now }
    requires j_bound { (j < hyperedge_count t.now) × Firsts t.now firsts.now }
    ensures { result ≡ to_one_of v state (other_members v (members_at limit t.now j)) }
{
    let mut found = [0u32; 256];
    let n = list_others(t, firsts, j, v, &mut found);
    if n == 0 {
        return Walker { at: v, state };
    }
    let draw = xorshift(state);
    let k = draw as usize % n;
    Walker {
        at: pick(&found, k),
        state: draw,
    }
}

// The place of the hyperedge that the draw takes, of the n that list the vertex of record i.
pub fn drawn_hyperedge(
    t: &[u32],
    rows: &[u8; 65536],
    counts: &[usize; 256],
    i: usize,
    n: usize,
    draw: u64,
) -> usize
    requires formed { Formed limit t.now }
    requires i_bound { (i < vertex_count t.now) × (0 < n) × (n ≡ length (listers_of t.now i)) × Listers t.now (hyperedge_count t.now) rows.now counts.now }
    ensures { TakenBy t.now (listers_of t.now i) draw result }
{
    let total = total_weight(t, rows, counts, i, n);
    first_greater(t, rows, counts, i, n, sample(draw, total))
}

// How many records list the vertex of record i.
pub fn lister_count(t: &[u32], rows: &[u8; 65536], counts: &[usize; 256], i: usize) -> usize
    requires formed { Formed limit t.now }
    requires i_bound { (i < vertex_count t.now) × Listers t.now (hyperedge_count t.now) rows.now counts.now }
    ensures { result ≡ length (listers_of t.now i) }
{
    counts[i]
}
