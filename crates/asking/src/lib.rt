// What a clerk asks of a table, passed on to the entry point that answers it.
#![tactic(auto)]

ghost use Rattle.std.specs.Prelude.{◌≡◌};
ghost use Rattle.layout.specs.Answers.{result_of};
ghost use Rattle.asking.specs.Asking.{asked};

use commands::Query;
use layout::Answer;

// The listing, from the front of words; the answer tells how many words it has.
pub fn ask(t: &[u32], q: Query, words: &mut [u32]) -> Answer
    ensures { result_of result words.new ≡ asked q t.now words.old }
{
    match q {
        Query::Sort => topological_sort::topological_sort(t, words),
        Query::Costs(v) => dijkstra_from::get_dijkstra_from(t, v, words),
        Query::Upstream(v) => reached_vertices::get_upstream_vertices(t, v, words),
        Query::Downstream(v) => reached_vertices::get_downstream_vertices(t, v, words),
        Query::Next(v) => adjacent::get_adjacent_vertices_from(t, v, words),
        Query::Before(v) => adjacent::get_adjacent_vertices_to(t, v, words),
        Query::Components => component_listings::connected_components(t, words),
        Query::Strong => component_listings::strongly_connected_components(t, words),
        Query::Closure => component_listings::get_transitive_closure(t, words),
        Query::Cut => properties::find_cut_vertices(t, words),
        Query::Orphans => orphans::get_orphan_vertices(t, words),
        Query::Endpoints => orphans::get_endpoints(t, words),
        Query::FindTube(w) => vertex_weights::get_vertex_index(t, w, words),
        Query::FindTransfer(w) => hyperedge_listings::find_hyperedges_by_weight(t, w, words),
        Query::Walk { start, steps, seed } => {
            random_walk::random_walk(t, start, steps as usize, seed as u64, words)
        }
    }
}
