// The classes of a relation among records: each record's class, and the listing of the classes by number.
#![tactic(auto)]

ghost use Rattle.std.specs.Prelude.{◌≡◌, cond, map, suc, ◌<◌, ◌≤◌, eqb, length};
ghost use Rattle.lists.specs.Tests.{count, chosen};
ghost use Rattle.lists.specs.Lists.{over, counted, up_to};
ghost use Rattle.lists.specs.Inner.{Wrote};
ghost use Rattle.layout.specs.Layout.{limit, vertex_limit, vertex_count, read};
ghost use Rattle.layout.specs.Inner.{Formed};
ghost use Rattle.layout.specs.Answers.{result_of, listed};
ghost use Rattle.graph.specs.Reach.{matrix, Symmetric};
ghost use Rattle.steps.specs.Matrices.{number_of};
ghost use Rattle.components.specs.Classes.{reached};
ghost use Rattle.components.specs.Parts.{flagged, in_class, Joined, Tried, Partition, Filled, part_words};

use layout::{Answer, Refusal};

fn either(was: u32, mark: u8, k: u32) -> u32
    ensures { result ≡ cond (eqb mark 1) k was }
{
    if mark == 1 { k } else { was }
}

// Every marked record joins class k.
pub fn join(marks: &[u8; 256], n: usize, k: u32, ids: &mut [u32; 256])
    requires { (n ≤ vertex_limit) × (length ids.old ≡ vertex_limit) }
    ensures { Joined (flagged marks.now) n k ids.old ids.new }
{
    for v in 0..n {
        ids[v] = either(ids[v], marks[v], k);
    }
}

// Where r is in no class, what is reached from it becomes the next one.
fn try_root(adj: &[u8; 65536], n: usize, r: usize, c: u32, ids: &mut [u32; 256]) -> u32
    requires { (n ≤ vertex_limit) × (r < n) × (c < vertex_limit) × (length ids.old ≡ vertex_limit) }
    ensures { Tried (reached (matrix adj.now) n) n r ids.old c ids.new result }
{
    if ids[r] != 0 {
        return c;
    }
    let mut marks = [0u8; 256];
    graph::marks_from(adj, n, r, &mut marks);
    join(&marks, n, c + 1, ids);
    c + 1
}

// The classes of what is reached, where steps lead both ways: roots ascend. Answers how many there are.
pub fn part_linked(adj: &[u8; 65536], n: usize, ids: &mut [u32; 256]) -> u32
    requires { (n ≤ vertex_limit) × Symmetric (matrix adj.now) n }
    ensures { Partition (reached (matrix adj.now) n) n (up_to n) ids.new result }
{
    let blank = [0u32; 256];
    *ids = blank;
    let mut c = 0;
    for r in 0..n {
        c = try_root(adj, n, r, c, ids);
    }
    c
}

// How many records are in class k.
fn class_size(ids: &[u32; 256], n: usize, k: u32) -> u32
    requires { n ≤ vertex_limit }
    ensures { result ≡ count (in_class ids.now k) n }
{
    let mut c = 0;
    for v in 0..n {
        if ids[v] == k {
            c += 1;
        }
    }
    c
}

// Writes the numbers of the records in class k from the front of a part of the answer.
fn write_members(t: &[u32], ids: &[u32; 256], n: usize, k: u32, part: &mut [u32])
    requires formed { Formed limit t.now }
    requires n_value { (n ≡ vertex_count t.now) × (count (in_class ids.now k) n ≤ length part.old) }
    ensures { part.new ≡ over (map (number_of (read limit t.now)) (chosen (in_class ids.now k) n)) part.old }
{
    let mut c = 0;
    for v in 0..n {
        if ids[v] == k {
            part[c] = layout::vertex_number(t, v);
            c += 1;
        }
    }
}

// Class k, as its length and its members, from the front of a part of the answer.
fn write_class(t: &[u32], ids: &[u32; 256], n: usize, k: u32, part: &mut [u32]) -> usize
    requires formed { Formed limit t.now }
    requires n_value { (n ≡ vertex_count t.now) × (suc (count (in_class ids.now k) n) ≤ length part.old) }
    ensures { Wrote (counted (map (number_of (read limit t.now)) (chosen (in_class ids.now k) n))) part.old result part.new }
{
    let size = class_size(ids, n, k);
    part[0] = size;
    write_members(t, ids, n, k, &mut part[1..]);
    size as usize + 1
}

// Classes 1 to c, each in the part of the answer after the one before.
fn write_classes(t: &[u32], ids: &[u32; 256], n: usize, c: u32, out: &mut [u32])
    requires formed { Formed limit t.now }
    requires n_value { (n ≡ vertex_count t.now) × (length (part_words (number_of (read limit t.now)) ids.now n c) ≤ length out.old) }
    ensures { out.new ≡ over (part_words (number_of (read limit t.now)) ids.now n c) out.old }
{
    let mut at = 0;
    for k in 0..c {
        at += write_class(t, ids, n, k + 1, &mut out[at..]);
    }
}

// Lists the c classes. Each record is in one, so the words are a length for each class and every record's number.
pub fn list_classes(t: &[u32], ids: &[u32; 256], n: usize, c: u32, out: &mut [u32]) -> Answer
    requires formed { Formed limit t.now }
    requires n_value { (n ≡ vertex_count t.now) × Filled n c ids.now }
    ensures { result_of result out.new ≡ listed (part_words (number_of (read limit t.now)) ids.now n c) out.old }
{
    let need = n + c as usize;
    if out.len() < need {
        return Err(Refusal::NoRoom(need));
    }
    write_classes(t, ids, n, c, out);
    Ok(need)
}
