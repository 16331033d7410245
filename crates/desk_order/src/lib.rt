// The planner's order: whether it lists every live vertex once, and every step goes forward.
#![tactic(auto)]

ghost use Rattle.std.specs.Prelude.{◌≡◌, ◌||◌, [], ◌<◌, eqb, length};
ghost use Rattle.lists.specs.Tests.{◌and◌};
ghost use Rattle.lists.specs.Lists.{any, up_to};
ghost use Rattle.layout.specs.Layout.{limit, vertex_limit, vertex_count, read};
ghost use Rattle.layout.specs.Inner.{Formed};
ghost use Rattle.layout.specs.Answers.{result_of};
ghost use Rattle.steps.specs.Matrices.{steps_between};
ghost use Rattle.steps.specs.Inner.{Holds};
ghost use Rattle.desk.specs.Desk.{desk_of};
ghost use Rattle.desk.specs.Releases.{on_desk};
ghost use Rattle.desk.specs.Orders.{first_fault, accept_result};
ghost use Rattle.desk_order.specs.Placed.{meets_at, Placed, PlacedNext, Judged, on_length};

use desk_fits::desk_fits;
use layout::{Answer, Refusal, VertexIndex};

fn met_at(met: bool, mark: u8, placed: bool) -> bool
    ensures { result ≡ (met || (eqb mark 1 and placed)) }
{
    if mark != 1 {
        return met;
    }
    if placed {
        return true;
    }
    met
}

// Whether record k has a step to a placed record. None is skipped, so that the compiler can take several at a time.
fn meets(m: &[u8; 65536], k: usize, placed: &[bool; 256]) -> bool
    requires { k < vertex_limit }
    ensures { result ≡ any (meets_at m.now placed.now k) (up_to vertex_limit) }
{
    let mut met = false;
    for j in 0..256 {
        met = met_at(met, m[k * 256 + j], placed[j]);
    }
    met
}

// Places record k, and false; or true, where it is placed already, or has a step to itself or to a placed record.
fn place(m: &[u8; 65536], k: usize, placed: &mut [bool; 256]) -> bool
    requires { (k < vertex_limit) × (length placed.old ≡ vertex_limit) }
    ensures { PlacedNext m.now k placed.old result placed.new }
{
    if placed[k] {
        return true;
    }
    if m[k * 256 + k] == 1 {
        return true;
    }
    if meets(m, k, placed) {
        return true;
    }
    placed[k] = true;
    false
}

// Whether entry i is at fault; where it is not, its record is placed.
fn is_at_fault(
    t: &[u32],
    m: &[u8; 65536],
    order: &[u32],
    i: usize,
    placed: &mut [bool; 256],
) -> bool
    requires formed { Formed limit t.now }
    requires holds { Holds (steps_between (read limit t.now)) (vertex_count t.now) m.now }
    requires i_in_bounds { (i < length order.now) × Placed (read limit t.now) order.now i placed.old }
    ensures { Judged (read limit t.now) order.now i result placed.new }
{
    let Some(k) = find::find_vertex(t, VertexIndex(order[i])) else {
        return true;
    };
    place(m, k, placed)
}

// The first place at fault. Each entry before it has a record of its own, so that there are at most 257 turns.
fn first_fault(t: &[u32], m: &[u8; 65536], order: &[u32]) -> Option<usize>
    requires formed { Formed limit t.now }
    requires holds { Holds (steps_between (read limit t.now)) (vertex_count t.now) m.now }
    ensures { result ≡ first_fault (read limit t.now) order.now }
{
    let mut placed = [false; 256];
    for i in 0..order.len() {
        if is_at_fault(t, m, order, i, &mut placed) {
            return Some(i);
        }
    }
    None
}

fn accept_formed(t: &[u32], order: &[u32]) -> Answer
    requires { Formed limit t.now }
    ensures { result_of result [] ≡ accept_result order.now (read limit t.now) }
{
    let mut m = [0u8; 65536];
    steps::step_matrix(t, &mut m);
    if let Some(i) = first_fault(t, &m, order) {
        return Err(Refusal::BadOrder(i));
    }
    judge_length(t, order)
}

// Whether an order with no place at fault stops short.
fn judge_length(t: &[u32], order: &[u32]) -> Answer
    requires { Formed limit t.now }
    ensures { result_of result [] ≡ on_length (read limit t.now) order.now }
{
    if order.len() < layout::vertex_count(t) {
        return Err(Refusal::BadOrder(order.len()));
    }
    Ok(0)
}

// Accepts an order, or names the first place that is at fault, or its length where it stops short.
pub fn desk_accept_order(t: &[u32], s: &[u32], order: &[u32]) -> Answer
    ensures { result_of result [] ≡ on_desk (desk_of t.now s.now) [] (accept_result order.now) }
{
    if !desk_fits(t, s) {
        return Err(Refusal::NotWellFormed);
    }
    accept_formed(t, order)
}
