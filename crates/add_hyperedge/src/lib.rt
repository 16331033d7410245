// Adding a hyperedge.
#![tactic(auto)]

ghost use Rattle.std.specs.Prelude.{◌≡◌, ◌+◌, ◌<◌, ◌≤◌, length};
ghost use Rattle.layout.specs.Layout.{limit, hyperedge_limit, size, hyperedge_count, hyperedge_at, read_hyperedges, read};
ghost use Rattle.layout.specs.Inner.{Formed};
ghost use Rattle.layout.specs.Answers.{on_formed, result_of};
ghost use Rattle.edits.specs.Results.{last_number, identical, add_hyperedge_result, first_passing};
ghost use Rattle.layout.specs.Content.{hyperedge_of};
ghost use Rattle.edits.specs.Records.{put_hyperedge};
ghost use Rattle.edits.specs.Stages.{add_new_result, add_judged_result};

use edits::records::{LAST_NUMBER, put_members};
use layout::{Answer, Refusal};
use member_lists::{judge_members, same_members};

// Stores a hyperedge of number x at place m, and counts it.
fn put_hyperedge(t: &mut [u32], m: usize, x: u32, weight: u32, members: &[u32])
    requires { (length t.old ≡ size limit) × ((m < hyperedge_limit) × ((x < last_number) × (length members.now ≤ limit))) }
    ensures { t.new ≡ put_hyperedge limit m (hyperedge_of x weight members.now) (x + 1) (m + 1) t.old }
{
    let a = layout::HYPEREDGES_AT + m * layout::RECORD_SIZE;
    t[a] = x;
    t[a + 1] = weight;
    put_members(t, m, members);
    t[1] = x + 1;
    t[3] = (m + 1) as u32;
}

// Tests 7 and 8, then adds the hyperedge.
fn add_new(t: &mut [u32], members: &[u32], weight: u32) -> Answer
    requires formed { Formed limit t.old }
    requires members_nonzero { (0 < length members.now) × (length members.now ≤ limit) }
    ensures { result_of result t.new ≡ add_new_result members.now weight t.old (read limit t.old) }
{
    let m = layout::hyperedge_count(t);
    if layout::HYPEREDGE_LIMIT <= m {
        return Err(Refusal::Full);
    }
    let x = layout::next_hyperedge(t);
    if x == LAST_NUMBER {
        return Err(Refusal::NumbersSpent);
    }
    put_hyperedge(t, m, x, weight, members);
    Ok(x as usize)
}

// Whether hyperedge record j has this list and weight.
fn is_identical(t: &[u32], j: usize, members: &[u32], weight: u32) -> bool
    requires formed { Formed limit t.now }
    requires j_bound { j < hyperedge_count t.now }
    ensures { result ≡ identical members.now weight (hyperedge_at limit t.now j) }
{
    if layout::hyperedge_weight(t, j) != weight {
        return false;
    }
    let kept = layout::members_formed(t, j);
    same_members(members, kept)
}

// The place of the first hyperedge that has this list and weight.
fn find_identical(t: &[u32], members: &[u32], weight: u32) -> Option<usize>
    requires { Formed limit t.now }
    ensures { result ≡ first_passing (identical members.now weight) (read_hyperedges limit t.now) }
{
    let m = layout::hyperedge_count(t);
    for j in 0..m {
        if is_identical(t, j, members, weight) {
            return Some(j);
        }
    }
    None
}

// Answers an identical hyperedge's number, or adds one.
fn add_judged(t: &mut [u32], members: &[u32], weight: u32) -> Answer
    requires formed { Formed limit t.old }
    requires members_nonzero { (0 < length members.now) × (length members.now ≤ limit) }
    ensures { result_of result t.new ≡ add_judged_result members.now weight t.old (read limit t.old) }
{
    if let Some(j) = find_identical(t, members, weight) {
        return Ok(layout::hyperedge_number(t, j) as usize);
    }
    add_new(t, members, weight)
}

// The addition, to a well-formed table.
fn add_formed(t: &mut [u32], members: &[u32], weight: u32) -> Answer
    requires { Formed limit t.old }
    ensures { result_of result t.new ≡ add_hyperedge_result members.now weight t.old (read limit t.old) }
{
    judge_members(t, members, weight)?;
    add_judged(t, members, weight)
}

// Adds a hyperedge with the next number, or finds the first identical one; the answer tells the number.
pub fn add_hyperedge(t: &mut [u32], members: &[u32], weight: u32) -> Answer
    ensures { result_of result t.new ≡ on_formed t.old t.old (add_hyperedge_result members.now weight t.old) }
{
    if !well_formed::well_formed(t) {
        return Err(Refusal::NotWellFormed);
    }
    add_formed(t, members, weight)
}
