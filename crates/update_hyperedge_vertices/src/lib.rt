// Giving a hyperedge another list.
#![tactic(auto)]

ghost use Rattle.std.specs.Prelude.{◌≡◌, ◌<◌, ◌≤◌, length};
ghost use Rattle.layout.specs.Content.{live_hyperedges, position};
ghost use Rattle.layout.specs.Layout.{limit, read};
ghost use Rattle.layout.specs.Inner.{Formed};
ghost use Rattle.layout.specs.Answers.{on_formed, result_of};
ghost use Rattle.edits.specs.Results.{update_result};
ghost use Rattle.edits.specs.Stages.{update_live_result, update_judged_result};

use edits::records::put_members;
use layout::{Answer, HyperedgeIndex, Refusal};
use member_lists::{judge_members, same_members};

// Tests 5, then stores the new list in record j.
fn update_at(t: &mut [u32], e: HyperedgeIndex, j: usize, members: &[u32]) -> Answer
    requires formed { Formed limit t.old }
    requires t_value { (position e.0 (live_hyperedges (read limit t.old)) ≡ Some j) × ((0 < length members.now) × (length members.now ≤ limit)) }
    ensures { result_of result t.new ≡ update_live_result e.0 members.now t.old (read limit t.old) }
{
    let old = layout::members_formed(t, j);
    if same_members(members, old) {
        return Err(Refusal::SameMembers(e));
    }
    put_members(t, j, members);
    Ok(0)
}

// Tests 4.
fn update_judged(t: &mut [u32], e: HyperedgeIndex, members: &[u32]) -> Answer
    requires formed { Formed limit t.old }
    requires members_nonzero { (0 < length members.now) × (length members.now ≤ limit) }
    ensures { result_of result t.new ≡ update_judged_result e.0 members.now t.old (read limit t.old) }
{
    let j = find::find_hyperedge(t, e).ok_or(Refusal::HyperedgeNotLive(e))?;
    update_at(t, e, j, members)
}

// The update, of a well-formed table.
fn update_formed(t: &mut [u32], e: HyperedgeIndex, members: &[u32]) -> Answer
    requires { Formed limit t.old }
    ensures { result_of result t.new ≡ update_result e.0 members.now t.old (read limit t.old) }
{
    judge_members(t, members, e.0)?;
    update_judged(t, e, members)
}

// Gives the hyperedge the new member list; its weight stays.
pub fn update_hyperedge_vertices(t: &mut [u32], e: HyperedgeIndex, members: &[u32]) -> Answer
    ensures { result_of result t.new ≡ on_formed t.old t.old (update_result e.0 members.now t.old) }
{
    if !well_formed::well_formed(t) {
        return Err(Refusal::NotWellFormed);
    }
    update_formed(t, e, members)
}
