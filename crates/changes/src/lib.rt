// Changes at the desk, each with its sheet: a tube, a transfer, a list, transfers withdrawn.
#![tactic(auto)]

ghost use Rattle.std.specs.Prelude.{◌≡◌, true, []};
ghost use Rattle.commands.specs.declared.Change.TheVariants.{Tube, Transfer, Relist, WithdrawTransfers};
ghost use Rattle.desk.specs.Desk.{desk_of, desk_fits};
ghost use Rattle.wording.specs.Pages.{page};
ghost use Rattle.changes.specs.Changes.{told, change_told};

use desk_states::is_done;
use layout::{Answer, HyperedgeIndex};
use trays::HYPEREDGE_KIND;

pub fn make_tube(
    t: &mut [u32],
    s: &mut [u32],
    weight: u32,
    plain: bool,
    out: &mut [u8],
    at: usize,
) -> Answer
    ensures { told result (desk_of t.new s.new) out.new ≡ change_told plain (Tube weight) [] (desk_of t.old s.old) (page out.old at) }
{
    let a = desk_edits::desk_add_vertex(t, s, weight);
    if !is_done(a) {
        return a;
    }
    Ok(entry_sheets::say_tube(plain, a, weight, out, at))
}

pub fn make_transfer(
    t: &mut [u32],
    s: &mut [u32],
    cost: u32,
    list: &[u32],
    plain: bool,
    out: &mut [u8],
    at: usize,
) -> Answer
    requires { desk_fits (desk_of t.old s.old) ≡ true }
    ensures { told result (desk_of t.new s.new) out.new ≡ change_told plain (Transfer cost) list.now (desk_of t.old s.old) (page out.old at) }
{
    let next = layout::next_hyperedge(t);
    let a = desk_edits::desk_add_hyperedge(t, s, list, cost);
    if !is_done(a) {
        return a;
    }
    Ok(entry_sheets::say_transfer(plain, a, next, cost, list, out, at))
}

pub fn make_relist(
    t: &mut [u32],
    s: &mut [u32],
    e: HyperedgeIndex,
    list: &[u32],
    plain: bool,
    out: &mut [u8],
    at: usize,
) -> Answer
    ensures { told result (desk_of t.new s.new) out.new ≡ change_told plain (Relist e) list.now (desk_of t.old s.old) (page out.old at) }
{
    let a = desk_edits::desk_update_hyperedge_vertices(t, s, e, list);
    if !is_done(a) {
        return a;
    }
    Ok(entry_sheets::say_relist(plain, e, list, out, at))
}

pub fn withdraw_transfers(
    t: &mut [u32],
    s: &mut [u32],
    list: &[u32],
    plain: bool,
    out: &mut [u8],
    at: usize,
) -> Answer
    ensures { told result (desk_of t.new s.new) out.new ≡ change_told plain WithdrawTransfers list.now (desk_of t.old s.old) (page out.old at) }
{
    let a = desk_numbers::desk_withdraw_numbers(t, s, HYPEREDGE_KIND, list);
    if !is_done(a) {
        return a;
    }
    Ok(effect_sheets::say_transfers_withdrawn(plain, list, out, at))
}
