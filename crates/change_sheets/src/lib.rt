// A change at the desk, with its sheet: the answer is the place behind the sheet, or the refusal of the call, which writes and changes nothing.
#![tactic(auto)]

ghost use Rattle.std.specs.Prelude.{◌≡◌, true};
ghost use Rattle.desk.specs.Desk.{desk_of, desk_fits};
ghost use Rattle.wording.specs.Pages.{page};
ghost use Rattle.changes.specs.Changes.{told, change_told};

use commands::Change;
use desk_fits::desk_fits;
use layout::{Answer, Refusal};

// The change, of a desk that fits.
fn make_fitting(
    t: &mut [u32],
    s: &mut [u32],
    c: Change,
    list: &[u32],
    plain: bool,
    out: &mut [u8],
    at: usize,
) -> Answer
    requires { desk_fits (desk_of t.old s.old) ≡ true }
    ensures { told result (desk_of t.new s.new) out.new ≡ change_told plain c list.now (desk_of t.old s.old) (page out.old at) }
{
    match c {
        Change::Tube(weight) => changes::make_tube(t, s, weight, plain, out, at),
        Change::Transfer(cost) => changes::make_transfer(t, s, cost, list, plain, out, at),
        Change::Relist(e) => changes::make_relist(t, s, e, list, plain, out, at),
        Change::WithdrawTubes => change_effects::withdraw_tubes(t, s, list, plain, out, at),
        Change::WithdrawTransfers => changes::withdraw_transfers(t, s, list, plain, out, at),
        Change::Merge(v, w) => change_effects::make_merge(t, s, v, w, plain, out, at),
        Change::Review(v) => change_states::make_review(t, s, v, plain, out, at),
        Change::Release => change_states::make_releases(t, s, list, plain, out, at),
    }
}

// Makes a change and writes what it did. The list has the members of a transfer, or the numbers of a tray or of releases; plain writes numbers only.
pub fn make_change(
    t: &mut [u32],
    s: &mut [u32],
    c: Change,
    list: &[u32],
    plain: bool,
    out: &mut [u8],
    at: usize,
) -> Answer
    ensures { told result (desk_of t.new s.new) out.new ≡ change_told plain c list.now (desk_of t.old s.old) (page out.old at) }
{
    if !desk_fits(t, s) {
        return Err(Refusal::NotWellFormed);
    }
    make_fitting(t, s, c, list, plain, out, at)
}
