// The lists as sets, and which lie within which.
#![tactic(auto)]

ghost use Rattle.std.specs.Prelude.{◌≡◌, true, cond, ◌*◌, ◌<◌, ◌≤◌, length};
ghost use Rattle.lists.specs.Tests.{◌and◌, every};
ghost use Rattle.layout.specs.Layout.{limit, vertex_limit, hyperedge_count, hyperedge_at, read};
ghost use Rattle.layout.specs.Inner.{Formed};
ghost use Rattle.marks.specs.Marks.{is_marked};
ghost use Rattle.properties.specs.Properties.{under, within, is_within};
ghost use Rattle.properties.specs.State.{row_of, SetOf, RowPut, Sets};

use listed_members::mark_members;

// The records of a row that are compared at a time.
const PART: usize = 64;

// The marks of the members of record j.
fn member_marks(t: &[u32], j: usize) -> [bool; 256]
    requires formed { Formed limit t.now }
    requires j_bound { j < hyperedge_count t.now }
    ensures { SetOf t.now j (is_marked result) }
{
    let mut marks = [false; 256];
    mark_members(t, layout::members_formed(t, j), &mut marks);
    marks
}

// Puts the marks into row j.
fn put_row(marks: &[bool; 256], j: usize, m: &mut [bool; 65536])
    requires { (j < vertex_limit) × (length m.old ≡ vertex_limit * vertex_limit) }
    ensures { RowPut marks.now j m.old vertex_limit m.new }
{
    for i in 0..layout::VERTEX_LIMIT {
        m[j * layout::VERTEX_LIMIT + i] = marks[i];
    }
}

// The member sets of all records, and their sizes.
pub fn member_sets(t: &[u32], m: &mut [bool; 65536], sizes: &mut [usize; 256])
    requires formed { Formed limit t.now }
    requires m_len { (length m.old ≡ vertex_limit * vertex_limit) × (length sizes.old ≡ vertex_limit) }
    ensures { Sets t.now (hyperedge_count t.now) m.new sizes.new }
{
    let n = layout::vertex_count(t);
    let k = layout::hyperedge_count(t);
    for j in 0..k {
        let marks = member_marks(t, j);
        put_row(&marks, j, m);
        sizes[j] = marks::count_marked(&marks, n);
    }
}

// It held so far, and where the one is marked, so is the other.
fn still(ok: bool, p: bool, q: bool) -> bool
    ensures { result ≡ (ok and cond p q true) }
{
    if !p {
        return ok;
    }
    if !q {
        return false;
    }
    ok
}

// Of the records below `to`, each that is marked in row a is marked in row b; it holds below `from`. No record is skipped, so
// that the compiler can take several at a time.
fn part_within(m: &[bool; 65536], a: usize, b: usize, from: usize, to: usize) -> bool
    requires from_le_to { (from ≤ to) × ((to ≤ vertex_limit) × ((a < vertex_limit) × (b < vertex_limit))) }
    requires from_value { every (under (row_of m.now a) (row_of m.now b)) from ≡ true }
    ensures { result ≡ every (under (row_of m.now a) (row_of m.now b)) to }
{
    let mut ok = true;
    for i in from..to {
        ok = still(
            ok,
            m[a * layout::VERTEX_LIMIT + i],
            m[b * layout::VERTEX_LIMIT + i],
        );
    }
    ok
}

// Where the part that begins at record i ends.
fn part_end(i: usize, n: usize) -> usize
    requires { (i < n) × (n ≤ vertex_limit) }
    ensures { (i < result) × (result ≤ n) }
{
    if n - i < PART {
        return n;
    }
    i + PART
}

// Of n records, each that is marked in row a is marked in row b: part by part, to the first part that fails.
fn within(m: &[bool; 65536], n: usize, a: usize, b: usize) -> bool
    requires { (n ≤ vertex_limit) × ((a < vertex_limit) × (b < vertex_limit)) }
    ensures { result ≡ within n (row_of m.now a) (row_of m.now b) }
{
    let mut i = 0;
    // It counts no index: each turn goes on from the end of a part.
    while i < n {
        let e = part_end(i, n);
        if !part_within(m, a, b, i, e) {
            return false;
        }
        i = e;
    }
    true
}

// The set of record a is strictly within the set of record b.
pub fn strictly_within(
    t: &[u32],
    m: &[bool; 65536],
    sizes: &[usize; 256],
    a: usize,
    b: usize,
) -> bool
    requires formed { Formed limit t.now }
    requires sets { Sets t.now (hyperedge_count t.now) m.now sizes.now }
    requires a_bound { (a < hyperedge_count t.now) × (b < hyperedge_count t.now) }
    ensures { result ≡ is_within (read limit t.now) (hyperedge_at limit t.now a) (hyperedge_at limit t.now b) }
{
    if sizes[b] <= sizes[a] {
        return false;
    }
    within(m, layout::vertex_count(t), a, b)
}
