// A handed-in list of members: judged, and compared.
#![tactic(auto)]

ghost use Rattle.std.specs.Prelude.{◌≡◌};
ghost use Rattle.lists.specs.Lists.{same_list};
ghost use Rattle.layout.specs.Layout.{limit, read};
ghost use Rattle.layout.specs.Inner.{Formed};
ghost use Rattle.layout.specs.Steps.{steps_of, same_ends};
ghost use Rattle.edits.specs.Results.{first_passing};
ghost use Rattle.edits.specs.Stages.{NeighboursJudged, JudgedBy};

use layout::{Refusal, VertexIndex};

// The place of the first of the list that equals the place after it.
fn first_equal_neighbour(list: &[u32]) -> Option<usize>
    ensures { result ≡ first_passing same_ends (steps_of list.now) }
{
    list.windows(2).position(|w| w[0] == w[1])
}

// Tests 20.
fn judge_neighbours(members: &[u32]) -> Result<(), Refusal>
    ensures { NeighboursJudged result members.now }
{
    match first_equal_neighbour(members) {
        Some(i) => Err(Refusal::EqualNeighbours(VertexIndex(members[i]))),
        None => Ok(()),
    }
}

// Tests 2, 6, 3 and 20, in this order; d is the detail of 2.
pub fn judge_members(t: &[u32], members: &[u32], d: u32) -> Result<(), Refusal>
    requires { Formed limit t.now }
    ensures { JudgedBy result members.now d (read limit t.now) }
{
    if members.len() == 0 {
        return Err(Refusal::NoMembers(d));
    }
    if layout::MEMBER_LIMIT < members.len() {
        return Err(Refusal::TooManyMembers(members.len()));
    }
    match find::first_missing_vertex(t, members) {
        Some(i) => Err(Refusal::VertexNotLive(VertexIndex(members[i]))),
        None => judge_neighbours(members),
    }
}

// Whether the two lists are the same.
pub fn same_members(a: &[u32], b: &[u32]) -> bool
    ensures { result ≡ same_list a.now b.now }
{
    a == b
}
