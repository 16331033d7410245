// Edits through the release desk that leave the vertices' records where they are: so do the states. Answer and table are the lower edit's.
#![tactic(auto)]

ghost use Rattle.std.specs.Prelude.{◌≡◌};
ghost use Rattle.removals.specs.Removals.{hyperedge};
ghost use Rattle.calls.specs.Calls.{add_vertex, add_hyperedge, update, remove};
ghost use Rattle.desk.specs.Desk.{desk_of, outcome, desk_edit};

use desk_states::is_open;
use layout::{Answer, HyperedgeIndex, Refusal};

// A new vertex is in the first unused record, which has 0: it waits.
pub fn desk_add_vertex(t: &mut [u32], s: &mut [u32], weight: u32) -> Answer
    ensures { outcome result (desk_of t.new s.new) ≡ desk_edit (add_vertex weight) (desk_of t.old s.old) }
{
    if !is_open(t, s) {
        return Err(Refusal::NotWellFormed);
    }
    add_vertex::add_vertex(t, weight)
}

pub fn desk_add_hyperedge(t: &mut [u32], s: &mut [u32], members: &[u32], weight: u32) -> Answer
    ensures { outcome result (desk_of t.new s.new) ≡ desk_edit (add_hyperedge members.now weight) (desk_of t.old s.old) }
{
    if !is_open(t, s) {
        return Err(Refusal::NotWellFormed);
    }
    add_hyperedge::add_hyperedge(t, members, weight)
}

pub fn desk_update_hyperedge_vertices(
    t: &mut [u32],
    s: &mut [u32],
    e: HyperedgeIndex,
    members: &[u32],
) -> Answer
    ensures { outcome result (desk_of t.new s.new) ≡ desk_edit (update e.0 members.now) (desk_of t.old s.old) }
{
    if !is_open(t, s) {
        return Err(Refusal::NotWellFormed);
    }
    update_hyperedge_vertices::update_hyperedge_vertices(t, e, members)
}

pub fn desk_remove_hyperedge(t: &mut [u32], s: &mut [u32], e: HyperedgeIndex) -> Answer
    ensures { outcome result (desk_of t.new s.new) ≡ desk_edit (remove (hyperedge e.0)) (desk_of t.old s.old) }
{
    if !is_open(t, s) {
        return Err(Refusal::NotWellFormed);
    }
    remove_hyperedge::remove_hyperedge(t, e)
}
