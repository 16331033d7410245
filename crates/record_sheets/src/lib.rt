// Lines of tubes and of transfers, written on a page.
#![tactic(auto)]

ghost use Rattle.std.specs.Prelude.{◌≡◌, ◌<◌, length};
ghost use Rattle.lists.specs.Lists.{any, flat};
ghost use Rattle.layout.specs.Content.{lists, hyperedges_of};
ghost use Rattle.layout.specs.Layout.{limit, vertex_limit, vertex_count, hyperedge_count, vertex_at, hyperedge_at, read};
ghost use Rattle.layout.specs.Inner.{Formed};
ghost use Rattle.wording.specs.Pages.{page, write};
ghost use Rattle.wording.specs.Forms.{filled};
ghost use Rattle.record_sheets.specs.Records.{state_name, tube_line, transfer_line, tube_lines, transfer_lines, transfers_of};
ghost use Rattle.record_sheets.specs.Inner.{line_where};

use desk::{REVIEWED, WAITING};
use wording::{put_form, put_text};
use wording_lists::put_line;

// A form whose name is that of a state.
fn put_named(out: &mut [u8], at: usize, form: &[u8], ns: &[u32], state: u32) -> usize
    ensures { page out.new result ≡ write (filled form.now ns.now (state_name state)) (page out.old at) }
{
    if state == WAITING {
        return put_form(out, at, form, ns, b"waiting");
    }
    if state == REVIEWED {
        return put_form(out, at, form, ns, b"reviewed");
    }
    put_form(out, at, form, ns, b"released")
}

// The tube of record i.
pub fn put_tube(t: &[u32], s: &[u32], i: usize, form: &[u8], out: &mut [u8], at: usize) -> usize
    requires formed { Formed limit t.now }
    requires s_len { (length s.now ≡ vertex_limit) × (i < vertex_count t.now) }
    ensures { page out.new result ≡ write (tube_line form.now s.now (read limit t.now) (vertex_at t.now i)) (page out.old at) }
{
    let x = s[i];
    let ns = [layout::vertex_number(t, i), layout::vertex_weight(t, i), x];
    put_named(out, at, form, &ns, x)
}

// Every tube.
fn put_each_tube(t: &[u32], s: &[u32], form: &[u8], out: &mut [u8], at: usize) -> usize
    requires formed { Formed limit t.now }
    requires s_len { length s.now ≡ vertex_limit }
    ensures { page out.new result ≡ write (flat (tube_line form.now s.now (read limit t.now)) (read limit t.now).vertices) (page out.old at) }
{
    let n = layout::vertex_count(t);
    let mut next = at;
    for i in 0..n {
        next = put_tube(t, s, i, form, out, next);
    }
    next
}

// Every tube, or `none` where there is none.
pub fn put_tubes(t: &[u32], s: &[u32], none: &[u8], form: &[u8], out: &mut [u8], at: usize) -> usize
    requires formed { Formed limit t.now }
    requires s_len { length s.now ≡ vertex_limit }
    ensures { page out.new result ≡ write (tube_lines none.now form.now s.now (read limit t.now)) (page out.old at) }
{
    if layout::vertex_count(t) == 0 {
        return put_text(out, at, none);
    }
    put_each_tube(t, s, form, out, at)
}

// The transfer of record j.
pub fn put_transfer(t: &[u32], j: usize, form: &[u8], out: &mut [u8], at: usize) -> usize
    requires formed { Formed limit t.now }
    requires j_bound { j < hyperedge_count t.now }
    ensures { page out.new result ≡ write (transfer_line form.now (hyperedge_at limit t.now j)) (page out.old at) }
{
    let ns = [
        layout::hyperedge_number(t, j),
        layout::hyperedge_weight(t, j),
    ];
    let next = put_form(out, at, form, &ns, b"");
    put_line(out, next, b"", b"", layout::members_formed(t, j))
}

// Every transfer.
pub fn put_transfers(t: &[u32], form: &[u8], out: &mut [u8], at: usize) -> usize
    requires { Formed limit t.now }
    ensures { page out.new result ≡ write (transfer_lines form.now (read limit t.now)) (page out.old at) }
{
    let m = layout::hyperedge_count(t);
    let mut next = at;
    for j in 0..m {
        next = put_transfer(t, j, form, out, next);
    }
    next
}

// Whether some transfer lists a tube.
fn is_listed(t: &[u32], v: u32) -> bool
    requires { Formed limit t.now }
    ensures { result ≡ any (lists v) (read limit t.now).hyperedges }
{
    let m = layout::hyperedge_count(t);
    for j in 0..m {
        if lookups::holds(layout::members_formed(t, j), v) {
            return true;
        }
    }
    false
}

// The transfer of record j, where it lists a tube.
fn put_listing(t: &[u32], v: u32, j: usize, form: &[u8], out: &mut [u8], at: usize) -> usize
    requires formed { Formed limit t.now }
    requires j_bound { j < hyperedge_count t.now }
    ensures { page out.new result ≡ write (line_where (lists v) (transfer_line form.now) (hyperedge_at limit t.now j)) (page out.old at) }
{
    let ms = layout::members_formed(t, j);
    if lookups::holds(ms, v) {
        return put_transfer(t, j, form, out, at);
    }
    at
}

// Every transfer that lists a tube.
fn put_each_listing(t: &[u32], v: u32, form: &[u8], out: &mut [u8], at: usize) -> usize
    requires { Formed limit t.now }
    ensures { page out.new result ≡ write (flat (transfer_line form.now) (hyperedges_of (read limit t.now) v)) (page out.old at) }
{
    let m = layout::hyperedge_count(t);
    let mut next = at;
    for j in 0..m {
        next = put_listing(t, v, j, form, out, next);
    }
    next
}

// Every transfer that lists a tube, or `none` where there is none.
pub fn put_transfers_of(
    t: &[u32],
    v: u32,
    none: &[u8],
    form: &[u8],
    out: &mut [u8],
    at: usize,
) -> usize
    requires { Formed limit t.now }
    ensures { page out.new result ≡ write (transfers_of none.now form.now v (read limit t.now)) (page out.old at) }
{
    if !is_listed(t, v) {
        return put_text(out, at, none);
    }
    put_each_listing(t, v, form, out, at)
}
