// Traversal: breadth first and depth first from a vertex, and whether one vertex is reached from another.
#![tactic(auto)]

ghost use Rattle.std.specs.Prelude.{◌≡◌, [], ◌<◌};
ghost use Rattle.lists.specs.Tests.{bit};
ghost use Rattle.lists.specs.Lists.{memb};
ghost use Rattle.layout.specs.Content.{live_vertices, position};
ghost use Rattle.layout.specs.Layout.{limit, vertex_count, read};
ghost use Rattle.layout.specs.Inner.{Formed};
ghost use Rattle.layout.specs.Answers.{result_of, on_formed, listed};
ghost use Rattle.graph.specs.Bfs.{bfs};
ghost use Rattle.steps.specs.Matrices.{steps_between};
ghost use Rattle.traversal.specs.Traversal.{search_of, list_from, traversal_result, reachable_result};
ghost use Rattle.steps.specs.Ordered.{Ordered};

use layout::{Answer, Refusal, VertexIndex};

// In which order a search lists what it reaches: breadth first, or depth first in preorder.
#[derive(Clone, Copy)]
pub enum Order {
    BreadthFirst,
    DepthFirst,
}

// 1 where record j is reached from record i, else 0.
fn reached(t: &[u32], i: usize, j: usize) -> usize
    requires formed { Formed limit t.now }
    requires i_bound { (i < vertex_count t.now) × (j < vertex_count t.now) }
    ensures { result ≡ bit (memb j (bfs (steps_between (read limit t.now)) (vertex_count t.now) i)) }
{
    let n = layout::vertex_count(t);
    let mut m = [0u8; 65536];
    steps::step_matrix(t, &mut m);
    let mut marks = [0u8; 256];
    graph::marks_from(&m, n, i, &mut marks);
    marks[j] as usize
}

fn reached_from(t: &[u32], i: usize, from: VertexIndex, to: VertexIndex) -> Answer
    requires formed { Formed limit t.now }
    requires t_value { position from.0 (live_vertices (read limit t.now)) ≡ Some i }
    ensures { result_of result [] ≡ reachable_result from.0 to.0 (read limit t.now) }
{
    let j = find::find_vertex(t, to).ok_or(Refusal::VertexNotLive(to))?;
    Ok(reached(t, i, j))
}

fn reachable(t: &[u32], from: VertexIndex, to: VertexIndex) -> Answer
    requires { Formed limit t.now }
    ensures { result_of result [] ≡ reachable_result from.0 to.0 (read limit t.now) }
{
    let i = find::find_vertex(t, from).ok_or(Refusal::VertexNotLive(from))?;
    reached_from(t, i, from, to)
}

// Whether `to` is reached from `from` by a walk along steps, of no step or more: 1 or 0.
pub fn is_reachable(t: &[u32], from: VertexIndex, to: VertexIndex) -> Answer
    ensures { result_of result [] ≡ on_formed t.now [] (reachable_result from.0 to.0) }
{
    if !well_formed::well_formed(t) {
        return Err(Refusal::NotWellFormed);
    }
    reachable(t, from, to)
}

// A search from record i: the records reached, in the first places of `order`.
fn order_from(t: &[u32], i: usize, how: Order, order: &mut [u32; 256]) -> usize
    requires formed { Formed limit t.now }
    requires i_bound { i < vertex_count t.now }
    ensures { Ordered (vertex_count t.now) result order.new (search_of how (steps_between (read limit t.now)) (vertex_count t.now) i) }
{
    let n = layout::vertex_count(t);
    let mut m = [0u8; 65536];
    steps::step_matrix(t, &mut m);
    match how {
        Order::BreadthFirst => graph::get_bfs(&m, n, i, order),
        Order::DepthFirst => depth::get_dfs(&m, n, i, order),
    }
}

fn list_from(t: &[u32], i: usize, how: Order, out: &mut [u32]) -> Answer
    requires formed { Formed limit t.now }
    requires i_bound { i < vertex_count t.now }
    ensures { result_of result out.new ≡ listed (list_from how (read limit t.now) i) out.old }
{
    let mut order = [0u32; 256];
    let c = order_from(t, i, how, &mut order);
    steps::list_records(t, &order, c, out)
}

fn traverse(t: &[u32], v: VertexIndex, how: Order, out: &mut [u32]) -> Answer
    requires { Formed limit t.now }
    ensures { result_of result out.new ≡ traversal_result how v.0 out.old (read limit t.now) }
{
    let i = find::find_vertex(t, v).ok_or(Refusal::VertexNotLive(v))?;
    list_from(t, i, how, out)
}

// Lists what is reached from v, breadth first, smallest neighbour first.
pub fn get_bfs(t: &[u32], v: VertexIndex, out: &mut [u32]) -> Answer
    ensures { result_of result out.new ≡ on_formed t.now out.old (traversal_result Order.BreadthFirst v.0 out.old) }
{
    if !well_formed::well_formed(t) {
        return Err(Refusal::NotWellFormed);
    }
    traverse(t, v, Order::BreadthFirst, out)
}

// Lists what is reached from v, depth first in preorder, smallest neighbour first.
pub fn get_dfs(t: &[u32], v: VertexIndex, out: &mut [u32]) -> Answer
    ensures { result_of result out.new ≡ on_formed t.now out.old (traversal_result Order.DepthFirst v.0 out.old) }
{
    if !well_formed::well_formed(t) {
        return Err(Refusal::NotWellFormed);
    }
    traverse(t, v, Order::DepthFirst, out)
}
