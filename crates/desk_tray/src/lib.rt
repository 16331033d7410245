// Withdrawing a tray through the desk: a thin function over the lent list of records, above a covered one.
#![tactic(auto)]

ghost use Rattle.std.specs.Prelude.{◌≡◌};
ghost use Rattle.calls.specs.Calls.{withdraw};
ghost use Rattle.withdraw_tray.specs.Carried.{carried_out};
ghost use Rattle.desk.specs.Desk.{desk_of, outcome, edited, desk_edit};
ghost use Rattle.desk_tray.specs.Judged.{Judged};

use layout::{Answer, Refusal};
use tray_marks::Tray;
use trays::Withdrawal;

// Refuses, or takes out what is marked; the states follow their vertices.
pub fn carry_out_at_desk(t: &mut [u32], s: &mut [u32], tray: Tray) -> Answer
    requires { Judged tray t.old }
    ensures { outcome result (desk_of t.new s.new) ≡ edited (carried_out tray t.old) (desk_of t.old s.old) }
{
    if !desk_states::is_open(t, s) {
        return Err(Refusal::NotWellFormed);
    }
    let n = layout::vertex_count(t);
    let numbers = desk_states::note_numbers(t);
    let answer = withdraw_tray::carry_out(t, tray);
    desk_states::follow_done(t, &numbers, n, s, answer);
    answer
}

// Withdraws every record of the tray through the desk, or none.
pub fn desk_withdraw_tray(t: &mut [u32], s: &mut [u32], records: &[Withdrawal]) -> Answer
    ensures { outcome result (desk_of t.new s.new) ≡ desk_edit (withdraw records.now) (desk_of t.old s.old) }
{
    let tray = withdraw_tray::judge_records(t, records);
    carry_out_at_desk(t, s, tray)
}
