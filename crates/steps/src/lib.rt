// From a table to a matrix of marks by record: its steps, its turned steps, and its steps without direction; and from records back to numbers.
#![tactic(auto)]

ghost use Rattle.std.specs.Prelude.{◌≡◌, true, map, ◌<◌, ◌+◌, ◌≤◌, length, take};
ghost use Rattle.lists.specs.Lists.{over};
ghost use Rattle.layout.specs.Content.{live_vertices, is_live, position};
ghost use Rattle.layout.specs.Layout.{limit, vertex_limit, vertex_count, hyperedge_count, read};
ghost use Rattle.layout.specs.Inner.{Formed};
ghost use Rattle.layout.specs.Answers.{result_of, listed};
ghost use Rattle.steps.specs.Matrices.{number_of, steps_between, undirected_between};
ghost use Rattle.steps.specs.Inner.{cell, Holds, turned_between};
ghost use Rattle.steps.specs.Ordered.{Ordered};
ghost use Rattle.steps.specs.Drawn.{putting, Drawn};

use layout::{Answer, Refusal, VertexIndex};

// The record of a live vertex.
fn place(t: &[u32], x: u32) -> usize
    requires formed { Formed limit t.now }
    requires x_value { is_live (live_vertices (read limit t.now)) x ≡ true }
    ensures { position x (live_vertices (read limit t.now)) ≡ Some result }
{
    find::find_vertex(t, VertexIndex(x)).unwrap_or(0)
}

// One mark, where it is due.
fn put(due: bool, a: usize, b: usize, m: &mut [u8; 65536])
    requires { (a < vertex_limit) × (b < vertex_limit) }
    ensures { m.new ≡ putting due (cell a b) m.old }
{
    if !due {
        return;
    }
    m[a * layout::VERTEX_LIMIT + b] = 1;
}

// Marks a step from record a to record b: as it leads where `forth`, against its direction where `back`.
fn put_step(forth: bool, back: bool, a: usize, b: usize, m: &mut [u8; 65536])
    requires { (a < vertex_limit) × (b < vertex_limit) }
    ensures { m.new ≡ putting back (cell b a) (putting forth (cell a b) m.old) }
{
    put(forth, a, b, m);
    put(back, b, a, m);
}

// Marks the steps of hyperedge record j: each member's record is found once.
fn draw_record(t: &[u32], j: usize, forth: bool, back: bool, m: &mut [u8; 65536])
    requires formed { Formed limit t.now }
    requires j_bound { (j < hyperedge_count t.now) × Drawn forth back t.now j m.old }
    ensures { Drawn forth back t.now (j + 1) m.new }
{
    let ms = layout::members_formed(t, j);
    let mut a = place(t, ms[0]);
    for i in 0..ms.len() - 1 {
        let b = place(t, ms[i + 1]);
        put_step(forth, back, a, b, m);
        a = b;
    }
}

// Marks the steps of every hyperedge.
fn draw(t: &[u32], forth: bool, back: bool, m: &mut [u8; 65536])
    requires formed { Formed limit t.now }
    requires drawn { Drawn forth back t.now 0 m.old }
    ensures { Drawn forth back t.now (hyperedge_count t.now) m.new }
{
    let k = layout::hyperedge_count(t);
    for j in 0..k {
        draw_record(t, j, forth, back, m);
    }
}

// The matrix of the steps.
pub fn step_matrix(t: &[u32], m: &mut [u8; 65536])
    requires { Formed limit t.now }
    ensures { Holds (steps_between (read limit t.now)) (vertex_count t.now) m.new }
{
    let blank = [0u8; 65536];
    *m = blank;
    draw(t, true, false, m);
}

// The matrix of the turned steps.
pub fn turned_matrix(t: &[u32], m: &mut [u8; 65536])
    requires { Formed limit t.now }
    ensures { Holds (turned_between (read limit t.now)) (vertex_count t.now) m.new }
{
    let blank = [0u8; 65536];
    *m = blank;
    draw(t, false, true, m);
}

// The matrix of the steps without direction: its walks are those of co-membership.
pub fn link_matrix(t: &[u32], m: &mut [u8; 65536])
    requires { Formed limit t.now }
    ensures { Holds (undirected_between (read limit t.now)) (vertex_count t.now) m.new }
{
    let blank = [0u8; 65536];
    *m = blank;
    draw(t, true, true, m);
}

// Writes the numbers of the first c records of `order` from the front of out.
fn write_numbers(t: &[u32], order: &[u32; 256], c: usize, out: &mut [u32])
    requires formed { Formed limit t.now }
    requires c_in_bounds { (c ≤ length out.old) × Ordered (vertex_count t.now) c order.now (take c order.now) }
    ensures { out.new ≡ over (map (number_of (read limit t.now)) (take c order.now)) out.old }
{
    for k in 0..c {
        out[k] = layout::vertex_number(t, order[k] as usize);
    }
}

// Lists the numbers of the first c records of `order`.
pub fn list_records(t: &[u32], order: &[u32; 256], c: usize, out: &mut [u32]) -> Answer
    requires formed { Formed limit t.now }
    requires ordered { Ordered (vertex_count t.now) c order.now (take c order.now) }
    ensures { result_of result out.new ≡ listed (map (number_of (read limit t.now)) (take c order.now)) out.old }
{
    if out.len() < c {
        return Err(Refusal::NoRoom(c));
    }
    write_numbers(t, order, c, out);
    Ok(c)
}
