// The sheets of records, of states and of the planner's order, written on a page.
#![tactic(auto)]

ghost use Rattle.std.specs.Prelude.{◌≡◌, true, ◌<◌, length};
ghost use Rattle.layout.specs.Layout.{limit, vertex_limit, vertex_count, hyperedge_count, vertex_at, hyperedge_at, read};
ghost use Rattle.layout.specs.Inner.{Formed};
ghost use Rattle.layout.specs.Answers.{result_of};
ghost use Rattle.desk.specs.Desk.{desk_of, desk_fits};
ghost use Rattle.wording.specs.Pages.{page, write};
ghost use Rattle.desk_sheets.specs.Sheets.{count_line, show_sheet, tube_sheet, tube_result, transfer_sheet, transfer_result, releasable_line, states_sheet, order_result};

use desk_order::desk_accept_order;
use desk_releasable::desk_releasable;
use layout::{Answer, HyperedgeIndex, Refusal, Reply, VertexIndex};
use record_sheets::{put_transfer, put_transfers, put_transfers_of, put_tube, put_tubes};
use wording::{put_form, put_text};
use wording_lists::put_line;

// The line of both counts.
fn put_counts(t: &[u32], out: &mut [u8], at: usize) -> usize
    requires { Formed limit t.now }
    ensures { page out.new result ≡ write (count_line (read limit t.now)) (page out.old at) }
{
    let ns = [
        layout::vertex_count(t) as u32,
        layout::hyperedge_count(t) as u32,
    ];
    put_form(out, at, b"A B\n", &ns, b"")
}

// Every tube and every transfer.
pub fn put_show(t: &[u32], s: &[u32], plain: bool, out: &mut [u8], at: usize) -> usize
    requires formed { Formed limit t.now }
    requires s_len { length s.now ≡ vertex_limit }
    ensures { page out.new result ≡ write (show_sheet plain s.now (read limit t.now)) (page out.old at) }
{
    if plain {
        let a = put_counts(t, out, at);
        let b = put_tubes(t, s, b"", b"A B\n", out, a);
        return put_transfers(t, b"A B ", out, b);
    }
    let c = put_tubes(t, s, b"none\n", b"tube A   weight B\n", out, at);
    put_transfers(t, b"transfer A   cost B   tubes ", out, c)
}

// The sheet of the tube of record i.
fn put_tube_sheet(t: &[u32], s: &[u32], i: usize, plain: bool, out: &mut [u8], at: usize) -> usize
    requires formed { Formed limit t.now }
    requires s_len { (length s.now ≡ vertex_limit) × (i < vertex_count t.now) }
    ensures { page out.new result ≡ write (tube_sheet plain (vertex_at t.now i).number s.now (read limit t.now)) (page out.old at) }
{
    let v = layout::vertex_number(t, i);
    if plain {
        let a = put_tube(t, s, i, b"A B C\n", out, at);
        return put_transfers_of(t, v, b"", b"A B ", out, a);
    }
    let b = put_tube(t, s, i, b"tube A   weight B   U\n", out, at);
    put_transfers_of(t, v, b"  none\n", b"  transfer A   cost B   tubes ", out, b)
}

// A tube, and the transfers that list it.
pub fn show_tube(
    t: &[u32],
    s: &[u32],
    v: VertexIndex,
    plain: bool,
    out: &mut [u8],
    at: usize,
) -> Answer
    requires formed { Formed limit t.now }
    requires s_len { length s.now ≡ vertex_limit }
    ensures { result_of result out.new ≡ tube_result plain v.0 s.now (page out.old at) (read limit t.now) }
{
    let i = find::find_vertex(t, v).ok_or(Refusal::VertexNotLive(v))?;
    Ok(put_tube_sheet(t, s, i, plain, out, at))
}

// The sheet of the transfer of record j.
fn put_transfer_sheet(t: &[u32], j: usize, plain: bool, out: &mut [u8], at: usize) -> usize
    requires formed { Formed limit t.now }
    requires j_bound { j < hyperedge_count t.now }
    ensures { page out.new result ≡ write (transfer_sheet plain (hyperedge_at limit t.now j).number (read limit t.now)) (page out.old at) }
{
    if plain {
        return put_transfer(t, j, b"A B ", out, at);
    }
    put_transfer(t, j, b"transfer A   cost B   tubes ", out, at)
}

// A transfer.
pub fn show_transfer(t: &[u32], e: HyperedgeIndex, plain: bool, out: &mut [u8], at: usize) -> Answer
    requires { Formed limit t.now }
    ensures { result_of result out.new ≡ transfer_result plain e.0 (page out.old at) (read limit t.now) }
{
    let j = find::find_hyperedge(t, e).ok_or(Refusal::HyperedgeNotLive(e))?;
    Ok(put_transfer_sheet(t, j, plain, out, at))
}

// The line of the tubes that a release would release now.
fn put_releasable(t: &[u32], s: &[u32], out: &mut [u8], at: usize) -> usize
    requires { desk_fits (desk_of t.now s.now) ≡ true }
    ensures { page out.new result ≡ write (releasable_line s.now (read limit t.now)) (page out.old at) }
{
    let mut words = [0u32; 256];
    let a = desk_releasable(t, s, &mut words);
    let r = Reply::from(a);
    let k = r.detail as usize;
    put_line(out, at, b"can be released now: ", b"none", &words[0..k])
}

// The states of the tubes, and those that a release would release now.
pub fn put_states(t: &[u32], s: &[u32], plain: bool, out: &mut [u8], at: usize) -> usize
    requires formed { Formed limit t.now }
    requires s_len { length s.now ≡ vertex_limit }
    requires s_value { desk_fits (desk_of t.now s.now) ≡ true }
    ensures { page out.new result ≡ write (states_sheet plain s.now (read limit t.now)) (page out.old at) }
{
    if plain {
        return put_tubes(t, s, b"", b"A C\n", out, at);
    }
    let a = put_text(out, at, b"states\n");
    let b = put_tubes(t, s, b"  none\n", b"  tube A   U\n", out, a);
    put_releasable(t, s, out, b)
}

// Whether the planner's order is accepted.
pub fn judge_order(
    t: &[u32],
    s: &[u32],
    list: &[u32],
    plain: bool,
    out: &mut [u8],
    at: usize,
) -> Answer
    requires { desk_fits (desk_of t.now s.now) ≡ true }
    ensures { result_of result out.new ≡ order_result plain list.now (page out.old at) (read limit t.now) }
{
    desk_accept_order(t, s, list)?;
    if plain {
        return Ok(put_text(out, at, b"1\n"));
    }
    Ok(put_text(out, at, b"order accepted\n"))
}
