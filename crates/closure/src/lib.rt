// What is reached from each record, as a matrix; and the listing of a matrix's pairs by number.
#![tactic(auto)]

ghost use Rattle.std.specs.Prelude.{◌≡◌, ◌*◌, ◌<◌, ◌≤◌, length};
ghost use Rattle.lists.specs.Tests.{count};
ghost use Rattle.lists.specs.Lists.{over};
ghost use Rattle.lists.specs.Inner.{Wrote};
ghost use Rattle.layout.specs.Layout.{limit, vertex_limit, vertex_count, read};
ghost use Rattle.layout.specs.Inner.{Formed};
ghost use Rattle.layout.specs.Answers.{result_of, listed};
ghost use Rattle.graph.specs.Reach.{matrix};
ghost use Rattle.steps.specs.Matrices.{number_of};
ghost use Rattle.closure.specs.Pairs.{apart, row_words, pairs_words};
ghost use Rattle.closure.specs.State.{Copied, Closure, pairs_below};

use layout::{Answer, Refusal};

// Row x of the matrix takes the marks.
fn copy_row(c: &mut [u8; 65536], n: usize, x: usize, marks: &[u8; 256])
    requires { (n ≤ vertex_limit) × (x < vertex_limit) × (length c.old ≡ vertex_limit * vertex_limit) }
    ensures { Copied x n marks.now c.old c.new }
{
    for v in 0..n {
        c[x * 256 + v] = marks[v];
    }
}

// What is reached from each record: one search for each.
pub fn close(adj: &[u8; 65536], n: usize, c: &mut [u8; 65536])
    requires { (n ≤ vertex_limit) × (length c.old ≡ vertex_limit * vertex_limit) }
    ensures { Closure (matrix adj.now) n n c.new }
{
    let mut marks = [0u8; 256];
    for x in 0..n {
        graph::marks_from(adj, n, x, &mut marks);
        copy_row(c, n, x, &marks);
    }
}

// Whether x and y are a pair: not the same, and marked.
fn is_pair(m: &[u8; 65536], x: usize, y: usize) -> bool
    requires { (x < vertex_limit) × (y < vertex_limit) }
    ensures { result ≡ apart (matrix m.now) x y }
{
    if x == y {
        return false;
    }
    m[x * 256 + y] == 1
}

// How many pairs have x as their first.
fn count_row(m: &[u8; 65536], n: usize, x: usize) -> usize
    requires { (n ≤ vertex_limit) × (x < vertex_limit) }
    ensures { result ≡ count (apart (matrix m.now) x) n }
{
    let mut c = 0;
    for y in 0..n {
        if is_pair(m, x, y) {
            c += 1;
        }
    }
    c
}

// How many pairs there are.
fn count_pairs(m: &[u8; 65536], n: usize) -> usize
    requires { n ≤ vertex_limit }
    ensures { (result ≡ pairs_below (matrix m.now) n n) × (result ≤ n * vertex_limit) }
{
    let mut c = 0;
    for x in 0..n {
        c += count_row(m, n, x);
    }
    c
}

// Writes the pairs that have x as their first, from the front of a part of the answer.
fn write_row(t: &[u32], m: &[u8; 65536], n: usize, x: usize, part: &mut [u32]) -> usize
    requires formed { Formed limit t.now }
    requires n_value { (n ≡ vertex_count t.now) × (x < n) × (length (row_words (number_of (read limit t.now)) (matrix m.now) n x) ≤ length part.old) }
    ensures { Wrote (row_words (number_of (read limit t.now)) (matrix m.now) n x) part.old result part.new }
{
    let from = layout::vertex_number(t, x);
    let mut i = 0;
    for y in 0..n {
        if is_pair(m, x, y) {
            part[i] = from;
            part[i + 1] = layout::vertex_number(t, y);
            i += 2;
        }
    }
    i
}

// Writes all pairs, those of each first in the part of the answer after those before.
fn write_pairs(t: &[u32], m: &[u8; 65536], n: usize, out: &mut [u32])
    requires formed { Formed limit t.now }
    requires n_value { (n ≡ vertex_count t.now) × (length (pairs_words (number_of (read limit t.now)) (matrix m.now) n) ≤ length out.old) }
    ensures { out.new ≡ over (pairs_words (number_of (read limit t.now)) (matrix m.now) n) out.old }
{
    let mut at = 0;
    for x in 0..n {
        at += write_row(t, m, n, x, &mut out[at..]);
    }
}

// Lists the pairs of the matrix, two words each.
pub fn list_pairs(t: &[u32], m: &[u8; 65536], n: usize, out: &mut [u32]) -> Answer
    requires formed { Formed limit t.now }
    requires n_value { n ≡ vertex_count t.now }
    ensures { result_of result out.new ≡ listed (pairs_words (number_of (read limit t.now)) (matrix m.now) n) out.old }
{
    let need = 2 * count_pairs(m, n);
    if out.len() < need {
        return Err(Refusal::NoRoom(need));
    }
    write_pairs(t, m, n, out);
    Ok(need)
}
