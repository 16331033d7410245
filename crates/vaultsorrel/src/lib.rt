// The functions that the C interface offers: each calls the entry point of its name and gives its answer as number and detail.
// The crate vaultsorrel_c exports them.
#![tactic(auto)]

ghost use Rattle.std.specs.Prelude.{◌≡◌, []};
ghost use Rattle.layout.specs.Answers.{on_formed};
ghost use Rattle.edits.specs.Results.{add_vertex_result, add_hyperedge_result, update_result, remove_vertex_result, merge_result, remove_hyperedge_result, clear_result, empty_result};
ghost use Rattle.trays.specs.Trays.{tray_result};
ghost use Rattle.vaultsorrel.specs.Replies.{replied};
ghost use Rattle.lookups.specs.Results.{related_result, full_adjacent_result, degree_result, connecting_result, intersections_result, weighing_result, full_hyperedges_result, contains_result, vertex_index_result};
ghost use Rattle.reads.specs.Reads.{vertex_weight_result, hyperedge_weight_result, members_result, vertices_result, hyperedges_result};
ghost use Rattle.lookups.specs.declared.Direction.TheVariants.{From, To};
ghost use Rattle.lookups.specs.declared.Relation.TheVariants.{Along, Around};
ghost use Rattle.traversal.specs.Traversal.{traversal_result, reachable_result};
ghost use Rattle.traversal.specs.declared.Order.TheVariants.{BreadthFirst, DepthFirst};
ghost use Rattle.reached_vertices.specs.Reached.{reached_result};
ghost use Rattle.structural.specs.Components.{connected_result, strong_components_result, connected_components_result};
ghost use Rattle.structural.specs.Sort.{acyclic_result, sort_result};
ghost use Rattle.structural.specs.Closure.{closure_result};
ghost use Rattle.properties.specs.Results.{orphan_vertices_result, orphan_hyperedges_result, endpoints_result, inclusions_result, nestedness_result, uniform_result};
ghost use Rattle.cut.specs.Cut.{cut_vertices_result};
ghost use Rattle.paths.specs.Paths.{pair_result, from_result};
ghost use Rattle.walk.specs.Walk.{walk_result};
ghost use Rattle.frames.specs.Frames.{write_result};
ghost use Rattle.frames.specs.Reading.{read_result};

use layout::{HyperedgeIndex, Reply, VertexIndex};
use trays::Withdrawal;

pub mod at_desk;

// ---- Edits

// Adds a vertex with the next number, which the answer tells.
pub fn vs_add_vertex(t: &mut [u32], weight: u32) -> Reply
    ensures { replied result t.new ≡ on_formed t.old t.old (add_vertex_result weight t.old) }
{
    Reply::from(add_vertex::add_vertex(t, weight))
}

// Adds a hyperedge with the next number, or finds the first identical one; the answer tells the number.
pub fn vs_add_hyperedge(t: &mut [u32], members: &[u32], weight: u32) -> Reply
    ensures { replied result t.new ≡ on_formed t.old t.old (add_hyperedge_result members.now weight t.old) }
{
    Reply::from(add_hyperedge::add_hyperedge(t, members, weight))
}

// Gives the hyperedge the new member list; its weight stays.
pub fn vs_update_hyperedge_vertices(t: &mut [u32], e: HyperedgeIndex, members: &[u32]) -> Reply
    ensures { replied result t.new ≡ on_formed t.old t.old (update_result e.0 members.now t.old) }
{
    Reply::from(update_hyperedge_vertices::update_hyperedge_vertices(t, e, members))
}

pub fn vs_remove_vertex(t: &mut [u32], v: VertexIndex) -> Reply
    ensures { replied result t.new ≡ on_formed t.old t.old (remove_vertex_result v.0 t.old) }
{
    Reply::from(remove_vertex::remove_vertex(t, v))
}

// Merges w into v: each w in every list becomes v, and w is removed.
pub fn vs_merge_vertices(t: &mut [u32], v: VertexIndex, w: VertexIndex) -> Reply
    ensures { replied result t.new ≡ on_formed t.old t.old (merge_result v.0 w.0 t.old) }
{
    Reply::from(merge_vertices::merge_vertices(t, v, w))
}

pub fn vs_remove_hyperedge(t: &mut [u32], e: HyperedgeIndex) -> Reply
    ensures { replied result t.new ≡ on_formed t.old t.old (remove_hyperedge_result e.0 t.old) }
{
    Reply::from(remove_hyperedge::remove_hyperedge(t, e))
}

// Withdraws every vertex and hyperedge that the records name, or none.
pub fn vs_withdraw_tray(t: &mut [u32], records: &[Withdrawal]) -> Reply
    ensures { replied result t.new ≡ on_formed t.old t.old (tray_result records.now t.old) }
{
    Reply::from(withdraw_tray::withdraw_tray(t, records))
}

// Zeroes every word.
pub fn vs_clear(t: &mut [u32]) -> Reply
    ensures { replied result t.new ≡ clear_result t.old }
{
    Reply::from(hypergraph::clear(t))
}

// Whether no vertex is live: then no hyperedge is either.
pub fn vs_is_empty(t: &[u32]) -> Reply
    ensures { replied result [] ≡ on_formed t.now [] empty_result }
{
    Reply::from(hypergraph::is_empty(t))
}

// ---- Lookups

// The vertices that a step from the vertex leads to.
pub fn vs_get_adjacent_vertices_from(t: &[u32], v: VertexIndex, out: &mut [u32]) -> Reply
    ensures { replied result out.new ≡ on_formed t.now out.old (related_result (Along From) v.0 out.old) }
{
    Reply::from(adjacent::get_adjacent_vertices_from(t, v, out))
}

// The vertices from which a step leads to the vertex.
pub fn vs_get_adjacent_vertices_to(t: &[u32], v: VertexIndex, out: &mut [u32]) -> Reply
    ensures { replied result out.new ≡ on_formed t.now out.old (related_result (Along To) v.0 out.old) }
{
    Reply::from(adjacent::get_adjacent_vertices_to(t, v, out))
}

// The vertices that a step from the vertex leads to, each with the hyperedges that step there.
pub fn vs_get_full_adjacent_vertices_from(t: &[u32], v: VertexIndex, out: &mut [u32]) -> Reply
    ensures { replied result out.new ≡ on_formed t.now out.old (full_adjacent_result From v.0 out.old) }
{
    Reply::from(full_adjacent::get_full_adjacent_vertices_from(t, v, out))
}

// The vertices from which a step leads to the vertex, each with the hyperedges that step so.
pub fn vs_get_full_adjacent_vertices_to(t: &[u32], v: VertexIndex, out: &mut [u32]) -> Reply
    ensures { replied result out.new ≡ on_formed t.now out.old (full_adjacent_result To v.0 out.old) }
{
    Reply::from(full_adjacent::get_full_adjacent_vertices_to(t, v, out))
}

// The places at which the vertex is stepped to.
pub fn vs_get_vertex_degree_in(t: &[u32], v: VertexIndex) -> Reply
    ensures { replied result [] ≡ on_formed t.now [] (degree_result To v.0) }
{
    Reply::from(degrees::get_vertex_degree_in(t, v))
}

// The places at which the vertex is stepped from.
pub fn vs_get_vertex_degree_out(t: &[u32], v: VertexIndex) -> Reply
    ensures { replied result [] ≡ on_formed t.now [] (degree_result From v.0) }
{
    Reply::from(degrees::get_vertex_degree_out(t, v))
}

// The hyperedges that step from one vertex to another, once for each place. The second vertex need not be live.
pub fn vs_get_hyperedges_connecting(
    t: &[u32],
    from: VertexIndex,
    to: VertexIndex,
    out: &mut [u32],
) -> Reply
    ensures { replied result out.new ≡ on_formed t.now out.old (connecting_result from.0 to.0 out.old) }
{
    Reply::from(hyperedge_listings::get_hyperedges_connecting(t, from, to, out))
}

// The vertices that every hyperedge of the list has as a member.
pub fn vs_get_hyperedges_intersections(t: &[u32], hyperedges: &[u32], out: &mut [u32]) -> Reply
    ensures { replied result out.new ≡ on_formed t.now out.old (intersections_result hyperedges.now out.old) }
{
    Reply::from(intersections::get_hyperedges_intersections(t, hyperedges, out))
}

// The hyperedges of a weight.
pub fn vs_find_hyperedges_by_weight(t: &[u32], weight: u32, out: &mut [u32]) -> Reply
    ensures { replied result out.new ≡ on_formed t.now out.old (weighing_result weight out.old) }
{
    Reply::from(hyperedge_listings::find_hyperedges_by_weight(t, weight, out))
}

// The lists that hold the vertex, each as length and members.
pub fn vs_get_full_vertex_hyperedges(t: &[u32], v: VertexIndex, out: &mut [u32]) -> Reply
    ensures { replied result out.new ≡ on_formed t.now out.old (full_hyperedges_result v.0 out.old) }
{
    Reply::from(hyperedge_listings::get_full_vertex_hyperedges(t, v, out))
}

// Whether a vertex has the weight.
pub fn vs_contains_vertex(t: &[u32], weight: u32) -> Reply
    ensures { replied result [] ≡ on_formed t.now [] (contains_result weight) }
{
    Reply::from(vertex_weights::contains_vertex(t, weight))
}

// The vertices that stand with the vertex in some list.
pub fn vs_get_vertex_neighborhood(t: &[u32], v: VertexIndex, out: &mut [u32]) -> Reply
    ensures { replied result out.new ≡ on_formed t.now out.old (related_result Around v.0 out.old) }
{
    Reply::from(adjacent::get_vertex_neighborhood(t, v, out))
}

// The vertices of a weight.
pub fn vs_get_vertex_index(t: &[u32], weight: u32, out: &mut [u32]) -> Reply
    ensures { replied result out.new ≡ on_formed t.now out.old (vertex_index_result weight out.old) }
{
    Reply::from(vertex_weights::get_vertex_index(t, weight, out))
}

// ---- Plain reads

// The weight of a vertex.
pub fn vs_get_vertex_weight(t: &[u32], v: VertexIndex) -> Reply
    ensures { replied result [] ≡ on_formed t.now [] (vertex_weight_result v.0) }
{
    Reply::from(reads::get_vertex_weight(t, v))
}

// The weight of a hyperedge.
pub fn vs_get_hyperedge_weight(t: &[u32], e: HyperedgeIndex) -> Reply
    ensures { replied result [] ≡ on_formed t.now [] (hyperedge_weight_result e.0) }
{
    Reply::from(reads::get_hyperedge_weight(t, e))
}

// The members of a hyperedge, in their order.
pub fn vs_get_hyperedge_vertices(t: &[u32], e: HyperedgeIndex, out: &mut [u32]) -> Reply
    ensures { replied result out.new ≡ on_formed t.now out.old (members_result e.0 out.old) }
{
    Reply::from(reads::get_hyperedge_vertices(t, e, out))
}

// The live vertices, ascending.
pub fn vs_get_vertices(t: &[u32], out: &mut [u32]) -> Reply
    ensures { replied result out.new ≡ on_formed t.now out.old (vertices_result out.old) }
{
    Reply::from(reads::get_vertices(t, out))
}

// The live hyperedges, ascending.
pub fn vs_get_hyperedges(t: &[u32], out: &mut [u32]) -> Reply
    ensures { replied result out.new ≡ on_formed t.now out.old (hyperedges_result out.old) }
{
    Reply::from(reads::get_hyperedges(t, out))
}

// ---- Traversal

// Lists what is reached from v, breadth first, smallest neighbour first.
pub fn vs_get_bfs(t: &[u32], v: VertexIndex, out: &mut [u32]) -> Reply
    ensures { replied result out.new ≡ on_formed t.now out.old (traversal_result BreadthFirst v.0 out.old) }
{
    Reply::from(traversal::get_bfs(t, v, out))
}

// Lists what is reached from v, depth first in preorder, smallest neighbour first.
pub fn vs_get_dfs(t: &[u32], v: VertexIndex, out: &mut [u32]) -> Reply
    ensures { replied result out.new ≡ on_formed t.now out.old (traversal_result DepthFirst v.0 out.old) }
{
    Reply::from(traversal::get_dfs(t, v, out))
}

// Whether `to` is reached from `from` by a walk along steps, of no step or more: 1 or 0.
pub fn vs_is_reachable(t: &[u32], from: VertexIndex, to: VertexIndex) -> Reply
    ensures { replied result [] ≡ on_formed t.now [] (reachable_result from.0 to.0) }
{
    Reply::from(traversal::is_reachable(t, from, to))
}

// The other vertices from which the vertex is reached, ascending.
pub fn vs_get_upstream_vertices(t: &[u32], v: VertexIndex, out: &mut [u32]) -> Reply
    ensures { replied result out.new ≡ on_formed t.now out.old (reached_result To v.0 out.old) }
{
    Reply::from(reached_vertices::get_upstream_vertices(t, v, out))
}

// The other vertices that are reached from the vertex, ascending.
pub fn vs_get_downstream_vertices(t: &[u32], v: VertexIndex, out: &mut [u32]) -> Reply
    ensures { replied result out.new ≡ on_formed t.now out.old (reached_result From v.0 out.old) }
{
    Reply::from(reached_vertices::get_downstream_vertices(t, v, out))
}

// ---- Structure

// Whether the table is empty, or all vertices are linked through co-membership: 1 or 0.
pub fn vs_is_connected(t: &[u32]) -> Reply
    ensures { replied result [] ≡ on_formed t.now [] connected_result }
{
    Reply::from(component_listings::is_connected(t))
}

// Whether no steps form a closed walk: 1 or 0.
pub fn vs_is_acyclic(t: &[u32]) -> Reply
    ensures { replied result [] ≡ on_formed t.now [] acyclic_result }
{
    Reply::from(topological_sort::is_acyclic(t))
}

// Lists the pairs x, y with x not y and y reachable from x, sorted, two words each.
pub fn vs_get_transitive_closure(t: &[u32], out: &mut [u32]) -> Reply
    ensures { replied result out.new ≡ on_formed t.now out.old (closure_result out.old) }
{
    Reply::from(component_listings::get_transitive_closure(t, out))
}

// Lists the live vertices in the smallest order in which every step goes forward.
pub fn vs_topological_sort(t: &[u32], out: &mut [u32]) -> Reply
    ensures { replied result out.new ≡ on_formed t.now out.old (sort_result out.old) }
{
    Reply::from(topological_sort::topological_sort(t, out))
}

// Lists the strong components, latest-finished vertex first, each as its length and its members.
pub fn vs_strongly_connected_components(t: &[u32], out: &mut [u32]) -> Reply
    ensures { replied result out.new ≡ on_formed t.now out.old (strong_components_result out.old) }
{
    Reply::from(component_listings::strongly_connected_components(t, out))
}

// Lists the connected components, ordered by smallest member, each as its length and its members.
pub fn vs_connected_components(t: &[u32], out: &mut [u32]) -> Reply
    ensures { replied result out.new ≡ on_formed t.now out.old (connected_components_result out.old) }
{
    Reply::from(component_listings::connected_components(t, out))
}

// ---- Properties

// The vertices that no hyperedge lists.
pub fn vs_get_orphan_vertices(t: &[u32], out: &mut [u32]) -> Reply
    ensures { replied result out.new ≡ on_formed t.now out.old (orphan_vertices_result out.old) }
{
    Reply::from(orphans::get_orphan_vertices(t, out))
}

// The hyperedges without members: a well-formed table has none.
pub fn vs_get_orphan_hyperedges(t: &[u32], out: &mut [u32]) -> Reply
    ensures { replied result out.new ≡ on_formed t.now out.old (orphan_hyperedges_result out.old) }
{
    Reply::from(properties::get_orphan_hyperedges(t, out))
}

// The vertices with no step in and those with no step out: count, sources, count, sinks.
pub fn vs_get_endpoints(t: &[u32], out: &mut [u32]) -> Reply
    ensures { replied result out.new ≡ on_formed t.now out.old (endpoints_result out.old) }
{
    Reply::from(orphans::get_endpoints(t, out))
}

// The pairs of hyperedges of which the first's distinct members are strictly within the second's.
pub fn vs_get_inclusions(t: &[u32], out: &mut [u32]) -> Reply
    ensures { replied result out.new ≡ on_formed t.now out.old (inclusions_result out.old) }
{
    Reply::from(inclusions::get_inclusions(t, out))
}

// The vertices without which two others, linked through co-membership, no longer are.
pub fn vs_find_cut_vertices(t: &[u32], out: &mut [u32]) -> Reply
    ensures { replied result out.new ≡ on_formed t.now out.old (cut_vertices_result out.old) }
{
    Reply::from(properties::find_cut_vertices(t, out))
}

// A row of size, included and total for each size that some hyperedge has.
pub fn vs_get_nestedness_profile(t: &[u32], out: &mut [u32]) -> Reply
    ensures { replied result out.new ≡ on_formed t.now out.old (nestedness_result out.old) }
{
    Reply::from(nestedness::get_nestedness_profile(t, out))
}

// Whether every hyperedge has k members, repeats counted.
pub fn vs_is_k_uniform(t: &[u32], k: usize) -> Reply
    ensures { replied result [] ≡ on_formed t.now [] (uniform_result k) }
{
    Reply::from(properties::is_k_uniform(t, k))
}

// ---- Paths

// Lists the best walk from `from` to `to`: its cost as low word and high word, the count of entries, and the entries of vertex and hyperedge.
pub fn vs_get_dijkstra_connections_with_cost(
    t: &[u32],
    from: VertexIndex,
    to: VertexIndex,
    out: &mut [u32],
) -> Reply
    ensures { replied result out.new ≡ on_formed t.now out.old (pair_result from.0 to.0 out.old) }
{
    Reply::from(dijkstra_connections::get_dijkstra_connections_with_cost(t, from, to, out))
}

// Lists each vertex that is reached from `from` with its cost, ascending: vertex, low word, high word.
pub fn vs_get_dijkstra_from(t: &[u32], from: VertexIndex, out: &mut [u32]) -> Reply
    ensures { replied result out.new ≡ on_formed t.now out.old (from_result from.0 out.old) }
{
    Reply::from(dijkstra_from::get_dijkstra_from(t, from, out))
}

// ---- The walk

// The start and one vertex for each step.
pub fn vs_random_walk(
    t: &[u32],
    start: VertexIndex,
    steps: usize,
    seed: u64,
    out: &mut [u32],
) -> Reply
    ensures { replied result out.new ≡ on_formed t.now out.old (walk_result start.0 steps seed out.old) }
{
    Reply::from(random_walk::random_walk(t, start, steps, seed, out))
}

// ---- Frames

// Writes the table's frame text from the front of the lent bytes.
pub fn vs_write_frames(t: &[u32], text: &mut [u8]) -> Reply
    ensures { replied result text.new ≡ on_formed t.now text.old (write_result text.old) }
{
    Reply::from(write_frames::write_frames(t, text))
}

// Reads frame text into a table, or names the first line that no written text could have there.
pub fn vs_read_frames(t: &mut [u32], text: &[u8]) -> Reply
    ensures { replied result t.new ≡ read_result text.now t.old }
{
    Reply::from(read_frames::read_frames(t, text))
}
