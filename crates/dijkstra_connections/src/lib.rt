// The best path between two vertices, with its cost.
#![tactic(auto)]

ghost use Rattle.std.specs.Prelude.{◌≡◌, true, [], ◌∷◌, ◌++◌, ◌+◌, ◌*◌, ◌<◌, ◌≤◌, length, take};
ghost use Rattle.layout.specs.Content.{live_vertices, position};
ghost use Rattle.layout.specs.Layout.{limit, read, vertex_count};
ghost use Rattle.layout.specs.Inner.{Formed};
ghost use Rattle.layout.specs.Answers.{result_of, on_formed, listed};
ghost use Rattle.paths.specs.Paths.{pair_result, hyperedge_by};
ghost use Rattle.lists.specs.Lists.{over};
ghost use Rattle.lists.specs.Inner.{over_at};
ghost use Rattle.steps.specs.Matrices.{number_of};
ghost use Rattle.paths.specs.Choices.{Chosen};
ghost use Rattle.paths.specs.Written.{Laid, no_path, path_head, step_words, pair_between};

use choices::{choices, weights};
use layout::{Answer, Refusal, VertexIndex};
use paths::put_two;

// `from` is record i.
fn pair_from(t: &[u32], i: usize, from: VertexIndex, to: VertexIndex, out: &mut [u32]) -> Answer
    requires formed { Formed limit t.now }
    requires t_value { position from.0 (live_vertices (read limit t.now)) ≡ Some i }
    ensures { result_of result out.new ≡ pair_result from.0 to.0 out.old (read limit t.now) }
{
    let j = find::find_vertex(t, to).ok_or(Refusal::VertexNotLive(to))?;
    list_pair(t, i, j, out)
}

fn pair_formed(t: &[u32], from: VertexIndex, to: VertexIndex, out: &mut [u32]) -> Answer
    requires { Formed limit t.now }
    ensures { result_of result out.new ≡ pair_result from.0 to.0 out.old (read limit t.now) }
{
    let i = find::find_vertex(t, from).ok_or(Refusal::VertexNotLive(from))?;
    pair_from(t, i, from, to, out)
}

// Lists the best walk from `from` to `to`: its cost as low word and high word, the count of entries, and the entries of vertex and hyperedge.
pub fn get_dijkstra_connections_with_cost(
    t: &[u32],
    from: VertexIndex,
    to: VertexIndex,
    out: &mut [u32],
) -> Answer
    ensures { result_of result out.new ≡ on_formed t.now out.old (pair_result from.0 to.0 out.old) }
{
    if !well_formed::well_formed(t) {
        return Err(Refusal::NotWellFormed);
    }
    pair_formed(t, from, to, out)
}

// The number of the hyperedge at place h, counted from 1; 0 where there is none.
fn number_at(t: &[u32], h: u8) -> u32
    requires { Formed limit t.now }
    ensures { result ≡ (hyperedge_by (read limit t.now) h).number }
{
    let k = h as usize;
    if k == 0 {
        return 0;
    }
    if layout::hyperedge_count(t) < k {
        return 0;
    }
    layout::hyperedge_number(t, k - 1)
}

// The cost, the count of entries and the first entry.
fn put_head(cost: u64, count: usize, x: u32, out: &mut [u32])
    requires { (5 ≤ length out.old) × (count ≤ 65536) }
    ensures { out.new ≡ over (path_head cost count x) out.old }
{
    out[0] = (cost % 4294967296) as u32;
    out[1] = (cost / 4294967296) as u32;
    out[2] = count as u32;
    out[3] = x;
    out[4] = 4294967295;
}

// The entry of the step from record a to record b.
fn put_step(t: &[u32], c: &[u8; 65536], a: usize, b: usize, at: usize, out: &mut [u32])
    requires formed { Formed limit t.now }
    requires chosen { Chosen true t.now c.now × (a < vertex_count t.now) × (b < vertex_count t.now) × (at + 2 ≤ length out.old) }
    ensures { out.new ≡ over_at at (step_words (read limit t.now) a (b ∷ [])) out.old }
{
    let h = c[b * layout::VERTEX_LIMIT + a];
    put_two(layout::vertex_number(t, b), number_at(t, h), at, out);
}

// Writes the walk's entries after the first.
fn put_steps(t: &[u32], c: &[u8; 65536], i: usize, walk: &[u32; 256], steps: usize, out: &mut [u32])
    requires formed { Formed limit t.now }
    requires chosen { Chosen true t.now c.now × (i < vertex_count t.now) × Laid (vertex_count t.now) steps walk.now × (5 + steps * 2 ≤ length out.old) }
    ensures { out.new ≡ over_at 5 (step_words (read limit t.now) i (take steps walk.now)) out.old }
{
    let mut a = i;
    for k in 0..steps {
        let b = walk[k] as usize;
        put_step(t, c, a, b, 5 + k * 2, out);
        a = b;
    }
}

// No walk: cost 0, no entries.
fn list_none(out: &mut [u32]) -> Answer
    ensures { result_of result out.new ≡ listed no_path out.old }
{
    if out.len() < 3 {
        return Err(Refusal::NoRoom(3));
    }
    out[0] = 0;
    out[1] = 0;
    out[2] = 0;
    Ok(3)
}

// The walk of `steps` steps from record i.
fn list_walk(
    t: &[u32],
    c: &[u8; 65536],
    i: usize,
    walk: &[u32; 256],
    steps: usize,
    cost: u64,
    out: &mut [u32],
) -> Answer
    requires formed { Formed limit t.now }
    requires chosen { Chosen true t.now c.now × (i < vertex_count t.now) × Laid (vertex_count t.now) steps walk.now }
    ensures { result_of result out.new ≡ listed (path_head cost (steps + 1) (number_of (read limit t.now) i) ++ step_words (read limit t.now) i (take steps walk.now)) out.old }
{
    let needed = 5 + steps * 2;
    if out.len() < needed {
        return Err(Refusal::NoRoom(needed));
    }
    put_head(cost, steps + 1, layout::vertex_number(t, i), out);
    put_steps(t, c, i, walk, steps, out);
    Ok(needed)
}

// The best walk from record i to record j.
fn list_pair(t: &[u32], i: usize, j: usize, out: &mut [u32]) -> Answer
    requires formed { Formed limit t.now }
    requires i_bound { (i < vertex_count t.now) × (j < vertex_count t.now) }
    ensures { result_of result out.new ≡ listed (pair_between (read limit t.now) i j) out.old }
{
    let mut w = [0u32; 256];
    weights(t, &mut w);
    let mut c = [0u8; 65536];
    let mut lists = [0u8; 65536];
    let mut counts = [0u32; 256];
    choices(true, t, &w, &mut c, &mut lists, &mut counts);
    let mut walk = [0u32; 256];
    let n = layout::vertex_count(t);
    let r = dijkstra::best_walk(&c, &w, &lists, &counts, n, i, j, &mut walk);
    if !r.ok {
        return list_none(out);
    }
    list_walk(t, &c, i, &walk, r.steps, r.cost, out)
}
