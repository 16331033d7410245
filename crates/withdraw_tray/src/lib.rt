// Withdrawing a tray: thin functions over the lent list of records, above covered ones.
#![tactic(auto)]

ghost use Rattle.std.specs.Prelude.{◌≡◌};
ghost use Rattle.layout.specs.Answers.{on_formed, result_of};
ghost use Rattle.trays.specs.Trays.{tray_result};
ghost use Rattle.tray_marks.specs.Marking.{OpenFormed, tray_of};
ghost use Rattle.withdraw_tray.specs.Carried.{carried_out};

use layout::{Answer, Refusal};
use tray_marks::Tray;
use trays::Withdrawal;
use withdraw_marked::withdraw_marked;

// Judges every record against the table, and marks what each names.
pub fn judge_records(t: &[u32], records: &[Withdrawal]) -> Tray
    ensures { result ≡ tray_of t.now records.now }
{
    let mut tray = tray_marks::open_tray(t);
    for i in 0..records.len() {
        tray = tray_marks::judge_record(t, tray, i, records[i]);
    }
    tray
}

// Refuses, or takes out what is marked.
pub fn carry_out(t: &mut [u32], tray: Tray) -> Answer
    requires { OpenFormed tray t.old }
    ensures { result_of result t.new ≡ carried_out tray t.old }
{
    if !tray.formed {
        return Err(Refusal::NotWellFormed);
    }
    if tray.faulty {
        return Err(Refusal::BadRecord(tray.place));
    }
    let vertices = tray.vertices;
    let hyperedges = tray.hyperedges;
    withdraw_marked(t, &vertices, &hyperedges);
    Ok(0)
}

// Withdraws every record of the tray, or none.
pub fn withdraw_tray(t: &mut [u32], records: &[Withdrawal]) -> Answer
    ensures { result_of result t.new ≡ on_formed t.old t.old (tray_result records.now t.old) }
{
    let tray = judge_records(t, records);
    carry_out(t, tray)
}
