// Several numbers at the desk in one call, all or none: a tray of one kind, and releases.
#![tactic(auto)]

ghost use Rattle.std.specs.Prelude.{◌≡◌, map, length};
ghost use Rattle.layout.specs.Layout.{limit, vertex_limit, read};
ghost use Rattle.layout.specs.Inner.{Formed};
ghost use Rattle.layout.specs.Answers.{result_of};
ghost use Rattle.calls.specs.Calls.{withdraw};
ghost use Rattle.tray_marks.specs.Marking.{tray_of};
ghost use Rattle.desk.specs.Desk.{desk_of, outcome, desk_edit};
ghost use Rattle.desk.specs.Releases.{on_desk};
ghost use Rattle.desk_numbers.specs.Numbers.{of_kind, in_turn, release_numbers_result};

use desk_fits::desk_fits;
use edits::records::store;
use layout::{Answer, Refusal, VertexIndex};
use tray_marks::Tray;
use trays::Withdrawal;

// Judges a record of the kind for each number against the table, and marks what each names.
fn judge_numbers(t: &[u32], kind: u32, numbers: &[u32]) -> Tray
    ensures { result ≡ tray_of t.now (map (of_kind kind) numbers.now) }
{
    let mut tray = tray_marks::open_tray(t);
    for k in 0..numbers.len() {
        let w = Withdrawal {
            kind,
            number: numbers[k],
        };
        tray = tray_marks::judge_record(t, tray, k, w);
    }
    tray
}

// Withdraws every number of the kind, or none.
pub fn desk_withdraw_numbers(t: &mut [u32], s: &mut [u32], kind: u32, numbers: &[u32]) -> Answer
    ensures { outcome result (desk_of t.new s.new) ≡ desk_edit (withdraw (map (of_kind kind) numbers.now)) (desk_of t.old s.old) }
{
    let tray = judge_numbers(t, kind, numbers);
    desk_tray::carry_out_at_desk(t, s, tray)
}

// Releases the vertices in turn, up to the first that is refused.
fn release_in_turn(t: &[u32], s: &mut [u32], numbers: &[u32]) -> Answer
    requires formed { Formed limit t.now }
    requires s_len { length s.old ≡ vertex_limit }
    ensures { result_of result s.new ≡ in_turn numbers.now s.old (read limit t.now) }
{
    for i in 0..numbers.len() {
        desk_release::release_formed(t, s, VertexIndex(numbers[i]))?;
    }
    Ok(0)
}

// A copy of the states.
pub fn copy_of(s: &[u32]) -> [u32; 256]
    requires { length s.now ≡ vertex_limit }
    ensures { result ≡ s.now }
{
    let mut states = [0u32; 256];
    store(&mut states, 0, s);
    states
}

// The same on a copy of the states, which takes their place where none is refused.
fn release_all(t: &[u32], s: &mut [u32], numbers: &[u32]) -> Answer
    requires formed { Formed limit t.now }
    requires s_len { length s.old ≡ vertex_limit }
    ensures { result_of result s.new ≡ release_numbers_result numbers.now s.old (read limit t.now) }
{
    let mut states = copy_of(s);
    let a = release_in_turn(t, &mut states, numbers)?;
    store(s, 0, &states);
    Ok(a)
}

// Releases every vertex of the list, in its order, or none.
pub fn desk_release_numbers(t: &[u32], s: &mut [u32], numbers: &[u32]) -> Answer
    ensures { result_of result s.new ≡ on_desk (desk_of t.now s.old) s.old (release_numbers_result numbers.now s.old) }
{
    if !desk_fits(t, s) {
        return Err(Refusal::NotWellFormed);
    }
    release_all(t, s, numbers)
}
