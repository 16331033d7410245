// The costs from one vertex.
#![tactic(auto)]

ghost use Rattle.std.specs.Prelude.{◌≡◌, [], ◌∷◌, ◌+◌, ◌*◌, ◌/◌, ◌<◌, ◌≤◌, eqb, length};
ghost use Rattle.lists.specs.Tests.{bit, count};
ghost use Rattle.lists.specs.Lists.{over};
ghost use Rattle.lists.specs.Inner.{over_at};
ghost use Rattle.layout.specs.Layout.{limit, vertex_count, read};
ghost use Rattle.layout.specs.Inner.{Formed};
ghost use Rattle.layout.specs.Answers.{result_of, listed, on_formed};
ghost use Rattle.steps.specs.Matrices.{number_of};
ghost use Rattle.paths.specs.Paths.{low, high, costs_from, from_result};
ghost use Rattle.paths.specs.Written.{is_reached, key_words, keys_below, WroteAt};

use choices::{choices, weights};
use layout::{Answer, Refusal, VertexIndex};
use paths::put_three;

// 1 for the mark of a record that is reached, else 0.
fn one_reached(mark: u8) -> usize
    ensures { result ≡ bit (eqb mark 2) }
{
    if mark == 2 {
        return 1;
    }
    0
}

// How many of the first n records are reached.
fn count_reached(n: usize, m: &[u8; 256]) -> usize
    requires { n ≤ 256 }
    ensures { (result ≡ count (is_reached m.now) n) × (result ≤ n) }
{
    let mut k: usize = 0;
    for v in 0..n {
        k += one_reached(m[v]);
    }
    k
}

// The vertex of record v and the cost that its key has above the low 16 bits.
fn put_cost(t: &[u32], v: usize, key: u64, at: usize, out: &mut [u32])
    requires formed { Formed limit t.now }
    requires v_bound { (v < vertex_count t.now) × (at + 3 ≤ length out.old) }
    ensures { out.new ≡ over_at at (number_of (read limit t.now) v ∷ low (key / 65536) ∷ high (key / 65536) ∷ []) out.old }
{
    let cost = key / 65536;
    put_three(
        layout::vertex_number(t, v),
        (cost % 4294967296) as u32,
        (cost / 4294967296) as u32,
        at,
        out,
    );
}

// The words of record v, where it is reached, at place `at`; the place after them.
fn put_record(
    t: &[u32],
    m: &[u8; 256],
    d: &[u64; 256],
    v: usize,
    at: usize,
    out: &mut [u32],
) -> usize
    requires formed { Formed limit t.now }
    requires v_bound { (v < vertex_count t.now) × (at + 3 * bit (is_reached m.now v) ≤ length out.old) }
    ensures { WroteAt at (key_words (read limit t.now) m.now d.now v) out.old result out.new }
{
    if m[v] != 2 {
        return at;
    }
    put_cost(t, v, d[v], at, out);
    at + 3
}

// Writes the words of the records that are reached, ascending.
fn put_costs(t: &[u32], n: usize, m: &[u8; 256], d: &[u64; 256], out: &mut [u32])
    requires formed { Formed limit t.now }
    requires n_value { (n ≡ vertex_count t.now) × (count (is_reached m.now) n * 3 ≤ length out.old) }
    ensures { out.new ≡ over (keys_below (read limit t.now) m.now d.now n) out.old }
{
    let mut at = 0;
    for v in 0..n {
        at = put_record(t, m, d, v, at, out);
    }
}

// The costs from record i.
fn list_costs(t: &[u32], i: usize, out: &mut [u32]) -> Answer
    requires formed { Formed limit t.now }
    requires i_bound { i < vertex_count t.now }
    ensures { result_of result out.new ≡ listed (costs_from (read limit t.now) (number_of (read limit t.now) i)) out.old }
{
    let mut w = [0u32; 256];
    weights(t, &mut w);
    let mut c = [0u8; 65536];
    let mut lists = [0u8; 65536];
    let mut counts = [0u32; 256];
    choices(false, t, &w, &mut c, &mut lists, &mut counts);
    let n = layout::vertex_count(t);
    let mut m = [0u8; 256];
    let mut d = [0u64; 256];
    dijkstra::dijkstra(&c, &w, &lists, &counts, n, i, &mut m, &mut d);
    let needed = count_reached(n, &m) * 3;
    if out.len() < needed {
        return Err(Refusal::NoRoom(needed));
    }
    put_costs(t, n, &m, &d, out);
    Ok(needed)
}

fn from_formed(t: &[u32], from: VertexIndex, out: &mut [u32]) -> Answer
    requires { Formed limit t.now }
    ensures { result_of result out.new ≡ from_result from.0 out.old (read limit t.now) }
{
    let i = find::find_vertex(t, from).ok_or(Refusal::VertexNotLive(from))?;
    list_costs(t, i, out)
}

// Lists each vertex that is reached from `from` with its cost, ascending: vertex, low word, high word.
pub fn get_dijkstra_from(t: &[u32], from: VertexIndex, out: &mut [u32]) -> Answer
    ensures { result_of result out.new ≡ on_formed t.now out.old (from_result from.0 out.old) }
{
    if !well_formed::well_formed(t) {
        return Err(Refusal::NotWellFormed);
    }
    from_formed(t, from, out)
}
