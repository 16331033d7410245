// How many lists of each size lie within another.
#![tactic(auto)]

ghost use Rattle.std.specs.Prelude.{◌≡◌, ◌<◌, ◌≤◌, eqb, length};
ghost use Rattle.lists.specs.Lists.{over};
ghost use Rattle.lists.specs.Inner.{Wrote};
ghost use Rattle.layout.specs.Layout.{limit, vertex_limit, hyperedge_count, hyperedge_at, read};
ghost use Rattle.layout.specs.Inner.{Formed};
ghost use Rattle.layout.specs.Answers.{result_of, on_formed};
ghost use Rattle.marks.specs.Marks.{marked};
ghost use Rattle.properties.specs.Properties.{is_included, nestedness};
ghost use Rattle.properties.specs.Results.{nestedness_result};
ghost use Rattle.properties.specs.State.{Sets, Including, Classed, size_at, row_if};
ghost use Rattle.lists.specs.Tests.{◌and◌, bit, count};

use layout::{Answer, Refusal};
use member_sets::{member_sets, strictly_within};

// A row of size, included and total for each size that some hyperedge has.
pub fn get_nestedness_profile(t: &[u32], out: &mut [u32]) -> Answer
    ensures { result_of result out.new ≡ on_formed t.now out.old (nestedness_result out.old) }
{
    if !well_formed::well_formed(t) {
        return Err(Refusal::NotWellFormed);
    }
    list_profile(t, out)
}

// The set of record a is strictly within some other.
fn is_included(t: &[u32], m: &[bool; 65536], sizes: &[usize; 256], a: usize) -> bool
    requires formed { Formed limit t.now }
    requires sets { Sets t.now (hyperedge_count t.now) m.now sizes.now }
    requires a_bound { a < hyperedge_count t.now }
    ensures { result ≡ is_included (read limit t.now) (hyperedge_at limit t.now a) }
{
    let k = layout::hyperedge_count(t);
    for b in 0..k {
        if strictly_within(t, m, sizes, a, b) {
            return true;
        }
    }
    false
}

// The marks of the records that are included.
fn included_marks(t: &[u32], m: &[bool; 65536], sizes: &[usize; 256]) -> [bool; 256]
    requires formed { Formed limit t.now }
    requires sets { Sets t.now (hyperedge_count t.now) m.now sizes.now }
    ensures { Including t.now (hyperedge_count t.now) result }
{
    let k = layout::hyperedge_count(t);
    let mut inc = [false; 256];
    for a in 0..k {
        inc[a] = is_included(t, m, sizes, a);
    }
    inc
}

// 1 for a record of size x that has the size s and is marked, 0 for any other.
fn of_size(x: usize, marked: bool, s: usize) -> usize
    ensures { result ≡ bit (eqb x s and marked) }
{
    if x != s {
        return 0;
    }
    if marked {
        return 1;
    }
    0
}

// How many of the first k records have the size and are marked.
fn count_of_size(sizes: &[usize; 256], marks: &[bool; 256], k: usize, s: usize) -> usize
    requires { k ≤ vertex_limit }
    ensures { result ≡ count (size_at sizes.now marks.now s) k }
{
    let mut c = 0;
    for j in 0..k {
        c += of_size(sizes[j], marks[j], s);
    }
    c
}

// How many words the row of a size has.
fn row_length(
    t: &[u32],
    sizes: &[usize; 256],
    all: &[bool; 256],
    inc: &[bool; 256],
    s: usize,
) -> usize
    requires formed { Formed limit t.now }
    requires classed { Classed t.now sizes.now all.now inc.now }
    ensures { result ≡ length (row_if (read limit t.now) s) }
{
    let k = layout::hyperedge_count(t);
    if count_of_size(sizes, all, k, s) == 0 {
        return 0;
    }
    3
}

// A number that fits a word.
fn word(x: usize) -> u32
    requires { x ≤ vertex_limit }
    ensures { result ≡ x }
{
    x as u32
}

// Writes the row of a size from the front of out; how many words.
fn write_row(
    t: &[u32],
    sizes: &[usize; 256],
    all: &[bool; 256],
    inc: &[bool; 256],
    s: usize,
    out: &mut [u32],
) -> usize
    requires formed { Formed limit t.now }
    requires classed { Classed t.now sizes.now all.now inc.now }
    requires s_le_vertex_limit { (s ≤ vertex_limit) × (length (row_if (read limit t.now) s) ≤ length out.old) }
    ensures { Wrote (row_if (read limit t.now) s) out.old result out.new }
{
    let k = layout::hyperedge_count(t);
    let c = count_of_size(sizes, all, k, s);
    if c == 0 {
        return 0;
    }
    let d = count_of_size(sizes, inc, k, s);
    out[0] = word(s);
    out[1] = word(d);
    out[2] = word(c);
    3
}

fn count_rows(t: &[u32], sizes: &[usize; 256], all: &[bool; 256], inc: &[bool; 256]) -> usize
    requires formed { Formed limit t.now }
    requires classed { Classed t.now sizes.now all.now inc.now }
    ensures { result ≡ length (nestedness (read limit t.now)) }
{
    let e = layout::vertex_count(t) + 1;
    let mut c = 0;
    for s in 0..e {
        c += row_length(t, sizes, all, inc, s);
    }
    c
}

fn write_rows(
    t: &[u32],
    sizes: &[usize; 256],
    all: &[bool; 256],
    inc: &[bool; 256],
    out: &mut [u32],
)
    requires formed { Formed limit t.now }
    requires classed { Classed t.now sizes.now all.now inc.now }
    requires t_in_bounds { length (nestedness (read limit t.now)) ≤ length out.old }
    ensures { out.new ≡ over (nestedness (read limit t.now)) out.old }
{
    let e = layout::vertex_count(t) + 1;
    let mut c = 0;
    for s in 0..e {
        let w = write_row(t, sizes, all, inc, s, &mut out[c..]);
        c += w;
    }
}

fn list_profile(t: &[u32], out: &mut [u32]) -> Answer
    requires { Formed limit t.now }
    ensures { result_of result out.new ≡ nestedness_result out.old (read limit t.now) }
{
    let mut m = [false; 65536];
    let mut sizes = [0usize; 256];
    member_sets(t, &mut m, &mut sizes);
    let all = [true; 256];
    let inc = included_marks(t, &m, &sizes);
    let c = count_rows(t, &sizes, &all, &inc);
    if out.len() < c {
        return Err(Refusal::NoRoom(c));
    }
    write_rows(t, &sizes, &all, &inc, out);
    Ok(c)
}
