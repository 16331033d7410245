// What the C interface offers of the release desk: each function calls the entry point of its name and gives its answer as number and
// detail.
ghost use Rattle.std.specs.Prelude.{◌≡◌, []};
ghost use Rattle.removals.specs.Removals.{vertex, hyperedge};
ghost use Rattle.calls.specs.Calls.{add_vertex, add_hyperedge, update, merge, remove, withdraw};
ghost use Rattle.desk.specs.Desk.{desk_of, desk_edit, desk_clear, desk_read};
ghost use Rattle.desk.specs.Releases.{on_desk, review_result, release_result, state_result, list_result, releasable_result};
ghost use Rattle.desk.specs.Orders.{accept_result};
ghost use Rattle.vaultsorrel.specs.Replies.{replied, replied_at};

use layout::{HyperedgeIndex, Reply, VertexIndex};
use trays::Withdrawal;

// ---- Edits: the answer and the table are those of the edit, and the states follow their vertices

// Adds a vertex with the next number, which waits.
pub fn vs_desk_add_vertex(t: &mut [u32], s: &mut [u32], weight: u32) -> Reply
    ensures { replied_at result (desk_of t.new s.new) ≡ desk_edit (add_vertex weight) (desk_of t.old s.old) }
{
    Reply::from(desk_edits::desk_add_vertex(t, s, weight))
}

pub fn vs_desk_add_hyperedge(t: &mut [u32], s: &mut [u32], members: &[u32], weight: u32) -> Reply
    ensures { replied_at result (desk_of t.new s.new) ≡ desk_edit (add_hyperedge members.now weight) (desk_of t.old s.old) }
{
    Reply::from(desk_edits::desk_add_hyperedge(t, s, members, weight))
}

pub fn vs_desk_update_hyperedge_vertices(
    t: &mut [u32],
    s: &mut [u32],
    e: HyperedgeIndex,
    members: &[u32],
) -> Reply
    ensures { replied_at result (desk_of t.new s.new) ≡ desk_edit (update e.0 members.now) (desk_of t.old s.old) }
{
    Reply::from(desk_edits::desk_update_hyperedge_vertices(t, s, e, members))
}

// Removes the vertex, which loses its state.
pub fn vs_desk_remove_vertex(t: &mut [u32], s: &mut [u32], v: VertexIndex) -> Reply
    ensures { replied_at result (desk_of t.new s.new) ≡ desk_edit (remove (vertex v.0)) (desk_of t.old s.old) }
{
    Reply::from(desk_removals::desk_remove_vertex(t, s, v))
}

pub fn vs_desk_remove_hyperedge(t: &mut [u32], s: &mut [u32], e: HyperedgeIndex) -> Reply
    ensures { replied_at result (desk_of t.new s.new) ≡ desk_edit (remove (hyperedge e.0)) (desk_of t.old s.old) }
{
    Reply::from(desk_edits::desk_remove_hyperedge(t, s, e))
}

// Merges w into v: w loses its state, v keeps its own.
pub fn vs_desk_merge_vertices(t: &mut [u32], s: &mut [u32], v: VertexIndex, w: VertexIndex) -> Reply
    ensures { replied_at result (desk_of t.new s.new) ≡ desk_edit (merge v.0 w.0) (desk_of t.old s.old) }
{
    Reply::from(desk_removals::desk_merge_vertices(t, s, v, w))
}

pub fn vs_desk_withdraw_tray(t: &mut [u32], s: &mut [u32], records: &[Withdrawal]) -> Reply
    ensures { replied_at result (desk_of t.new s.new) ≡ desk_edit (withdraw records.now) (desk_of t.old s.old) }
{
    Reply::from(desk_tray::desk_withdraw_tray(t, s, records))
}

// Zeroes every word of the table, and every state.
pub fn vs_desk_clear(t: &mut [u32], s: &mut [u32]) -> Reply
    ensures { replied_at result (desk_of t.new s.new) ≡ desk_clear (desk_of t.old s.old) }
{
    Reply::from(desk_anew::desk_clear(t, s))
}

// Reads frame text into the table; where it is read, every state is zeroed.
pub fn vs_desk_read_frames(t: &mut [u32], s: &mut [u32], text: &[u8]) -> Reply
    ensures { replied_at result (desk_of t.new s.new) ≡ desk_read text.now (desk_of t.old s.old) }
{
    Reply::from(desk_anew::desk_read_frames(t, s, text))
}

// ---- Review and release

// A waiting vertex becomes reviewed, another stays as it is.
pub fn vs_desk_review(t: &[u32], s: &mut [u32], v: VertexIndex) -> Reply
    ensures { replied result s.new ≡ on_desk (desk_of t.now s.old) s.old (review_result v.0 s.old) }
{
    Reply::from(desk_review::desk_review(t, s, v))
}

// Releases the vertex where it is reviewed and every vertex with a step into it is released.
pub fn vs_desk_release(t: &[u32], s: &mut [u32], v: VertexIndex) -> Reply
    ensures { replied result s.new ≡ on_desk (desk_of t.now s.old) s.old (release_result v.0 s.old) }
{
    Reply::from(desk_release::desk_release(t, s, v))
}

// Accepts an order that lists every live vertex once, every step forward.
pub fn vs_desk_accept_order(t: &[u32], s: &[u32], order: &[u32]) -> Reply
    ensures { replied result [] ≡ on_desk (desk_of t.now s.now) [] (accept_result order.now) }
{
    Reply::from(desk_order::desk_accept_order(t, s, order))
}

// ---- Looking

// The state of the vertex, as the detail.
pub fn vs_desk_state(t: &[u32], s: &[u32], v: VertexIndex) -> Reply
    ensures { replied result [] ≡ on_desk (desk_of t.now s.now) [] (state_result v.0 s.now) }
{
    Reply::from(desk_looks::desk_state(t, s, v))
}

// The vertices in the state.
pub fn vs_desk_list(t: &[u32], s: &[u32], state: u32, out: &mut [u32]) -> Reply
    ensures { replied result out.new ≡ on_desk (desk_of t.now s.now) out.old (list_result state s.now out.old) }
{
    Reply::from(desk_looks::desk_list(t, s, state, out))
}

// The vertices that a release would release now.
pub fn vs_desk_releasable(t: &[u32], s: &[u32], out: &mut [u32]) -> Reply
    ensures { replied result out.new ≡ on_desk (desk_of t.now s.now) out.old (releasable_result s.now out.old) }
{
    Reply::from(desk_releasable::desk_releasable(t, s, out))
}
