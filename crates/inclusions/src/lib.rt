// Pairs of lists of which one lies within the other.
#![tactic(auto)]

ghost use Rattle.std.specs.Prelude.{◌≡◌, ◌<◌, ◌≤◌, length};
ghost use Rattle.lists.specs.Lists.{over};
ghost use Rattle.lists.specs.Inner.{Wrote};
ghost use Rattle.layout.specs.Layout.{limit, hyperedge_count, hyperedge_at, read};
ghost use Rattle.layout.specs.Inner.{Formed};
ghost use Rattle.layout.specs.Answers.{result_of, on_formed};
ghost use Rattle.properties.specs.Properties.{pair, pairs_of, inclusions};
ghost use Rattle.properties.specs.Results.{inclusions_result};
ghost use Rattle.properties.specs.State.{Sets};

use layout::{Answer, Refusal};
use member_sets::{member_sets, strictly_within};

// How many words the pair of records a and b has.
fn pair_length(t: &[u32], m: &[bool; 65536], sizes: &[usize; 256], a: usize, b: usize) -> usize
    requires formed { Formed limit t.now }
    requires sets { Sets t.now (hyperedge_count t.now) m.now sizes.now }
    requires a_bound { (a < hyperedge_count t.now) × (b < hyperedge_count t.now) }
    ensures { result ≡ length (pair (read limit t.now) (hyperedge_at limit t.now a) (hyperedge_at limit t.now b)) }
{
    if !strictly_within(t, m, sizes, a, b) {
        return 0;
    }
    2
}

// Writes the pair of records a and b from the front of out; how many words.
fn write_pair(
    t: &[u32],
    m: &[bool; 65536],
    sizes: &[usize; 256],
    a: usize,
    b: usize,
    out: &mut [u32],
) -> usize
    requires formed { Formed limit t.now }
    requires sets { Sets t.now (hyperedge_count t.now) m.now sizes.now }
    requires a_bound { (a < hyperedge_count t.now) × ((b < hyperedge_count t.now) × (length (pair (read limit t.now) (hyperedge_at limit t.now a) (hyperedge_at limit t.now b)) ≤ length out.old)) }
    ensures { Wrote (pair (read limit t.now) (hyperedge_at limit t.now a) (hyperedge_at limit t.now b)) out.old result out.new }
{
    if !strictly_within(t, m, sizes, a, b) {
        return 0;
    }
    out[0] = layout::hyperedge_number(t, a);
    out[1] = layout::hyperedge_number(t, b);
    2
}

// How many words the pairs of record a have.
fn count_of(t: &[u32], m: &[bool; 65536], sizes: &[usize; 256], a: usize) -> usize
    requires formed { Formed limit t.now }
    requires sets { Sets t.now (hyperedge_count t.now) m.now sizes.now }
    requires a_bound { a < hyperedge_count t.now }
    ensures { result ≡ length (pairs_of (read limit t.now) (hyperedge_at limit t.now a)) }
{
    let k = layout::hyperedge_count(t);
    let mut c = 0;
    for b in 0..k {
        c += pair_length(t, m, sizes, a, b);
    }
    c
}

// Writes the pairs of record a from the front of out; how many words.
fn write_of(t: &[u32], m: &[bool; 65536], sizes: &[usize; 256], a: usize, out: &mut [u32]) -> usize
    requires formed { Formed limit t.now }
    requires sets { Sets t.now (hyperedge_count t.now) m.now sizes.now }
    requires a_bound { (a < hyperedge_count t.now) × (length (pairs_of (read limit t.now) (hyperedge_at limit t.now a)) ≤ length out.old) }
    ensures { Wrote (pairs_of (read limit t.now) (hyperedge_at limit t.now a)) out.old result out.new }
{
    let k = layout::hyperedge_count(t);
    let mut c = 0;
    for b in 0..k {
        let w = write_pair(t, m, sizes, a, b, &mut out[c..]);
        c += w;
    }
    c
}

fn count_pairs(t: &[u32], m: &[bool; 65536], sizes: &[usize; 256]) -> usize
    requires formed { Formed limit t.now }
    requires sets { Sets t.now (hyperedge_count t.now) m.now sizes.now }
    ensures { result ≡ length (inclusions (read limit t.now)) }
{
    let k = layout::hyperedge_count(t);
    let mut c = 0;
    for a in 0..k {
        c += count_of(t, m, sizes, a);
    }
    c
}

fn write_pairs(t: &[u32], m: &[bool; 65536], sizes: &[usize; 256], out: &mut [u32])
    requires formed { Formed limit t.now }
    requires sets { Sets t.now (hyperedge_count t.now) m.now sizes.now }
    requires t_in_bounds { length (inclusions (read limit t.now)) ≤ length out.old }
    ensures { out.new ≡ over (inclusions (read limit t.now)) out.old }
{
    let k = layout::hyperedge_count(t);
    let mut c = 0;
    for a in 0..k {
        let w = write_of(t, m, sizes, a, &mut out[c..]);
        c += w;
    }
}

fn list_inclusions(t: &[u32], out: &mut [u32]) -> Answer
    requires { Formed limit t.now }
    ensures { result_of result out.new ≡ inclusions_result out.old (read limit t.now) }
{
    let mut m = [false; 65536];
    let mut sizes = [0usize; 256];
    member_sets(t, &mut m, &mut sizes);
    let c = count_pairs(t, &m, &sizes);
    if out.len() < c {
        return Err(Refusal::NoRoom(c));
    }
    write_pairs(t, &m, &sizes, out);
    Ok(c)
}

// The pairs of hyperedges of which the first's distinct members are strictly within the second's.
pub fn get_inclusions(t: &[u32], out: &mut [u32]) -> Answer
    ensures { result_of result out.new ≡ on_formed t.now out.old (inclusions_result out.old) }
{
    if !well_formed::well_formed(t) {
        return Err(Refusal::NotWellFormed);
    }
    list_inclusions(t, out)
}
