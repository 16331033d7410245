// Rows, numbers in a line and lists, written on a page.
#![tactic(auto)]

ghost use Rattle.std.specs.Prelude.{◌≡◌, ◌+◌, ◌*◌, ◌<◌, ◌≤◌, length, drop};
ghost use Rattle.lists.specs.Lists.{flat};
ghost use Rattle.wording.specs.Pages.{page, write};
ghost use Rattle.wording.specs.Forms.{row_filled, rows, joined, number_line, listed};
ghost use Rattle.wording_lists.specs.Parts.{after_blank, numbers_or, ListEnd};

use wording::{put_byte, put_form, put_number, put_text, word_at};

// Row i of k words, filled in.
fn put_row(out: &mut [u8], at: usize, form: &[u8], k: usize, ws: &[u32], i: usize) -> usize
    requires { i * k + k ≤ length ws.now }
    ensures { page out.new result ≡ write (row_filled form.now k ws.now i) (page out.old at) }
{
    let start = i * k;
    put_form(out, at, form, &ws[start..start + k], b"")
}

// Every whole row of k words, filled in.
pub fn put_rows(out: &mut [u8], at: usize, form: &[u8], k: usize, ws: &[u32]) -> usize
    requires { 0 < k }
    ensures { page out.new result ≡ write (rows form.now k ws.now) (page out.old at) }
{
    let n = ws.len() / k;
    let mut next = at;
    for i in 0..n {
        next = put_row(out, next, form, k, ws, i);
    }
    next
}

// A blank, and a number.
fn put_after(out: &mut [u8], at: usize, n: u32) -> usize
    ensures { page out.new result ≡ write (after_blank n) (page out.old at) }
{
    let next = put_byte(out, at, 32);
    put_number(out, next, n as u64)
}

// The numbers behind the first, a blank before each.
fn put_others(out: &mut [u8], at: usize, ns: &[u32]) -> usize
    ensures { page out.new result ≡ write (flat after_blank (drop 1 ns.now)) (page out.old at) }
{
    let mut next = at;
    for i in 1..ns.len() {
        next = put_after(out, next, ns[i]);
    }
    next
}

// Decimal numbers, a blank between two.
pub fn put_joined(out: &mut [u8], at: usize, ns: &[u32]) -> usize
    ensures { page out.new result ≡ write (joined ns.now) (page out.old at) }
{
    if ns.len() == 0 {
        return at;
    }
    let next = put_number(out, at, word_at(ns, 0) as u64);
    put_others(out, next, ns)
}

// The numbers, or `none` for no number.
fn put_numbers(out: &mut [u8], at: usize, none: &[u8], ns: &[u32]) -> usize
    ensures { page out.new result ≡ write (numbers_or none.now ns.now) (page out.old at) }
{
    if ns.len() == 0 {
        return put_text(out, at, none);
    }
    put_joined(out, at, ns)
}

// An opening, then the numbers or `none`, and the line feed.
pub fn put_line(out: &mut [u8], at: usize, opening: &[u8], none: &[u8], ns: &[u32]) -> usize
    ensures { page out.new result ≡ write (number_line opening.now none.now ns.now) (page out.old at) }
{
    let a = put_text(out, at, opening);
    let b = put_numbers(out, a, none, ns);
    put_byte(out, b, 10)
}

// Where the list ends whose count stands at place i: behind the last word, where the count is larger than what is left.
fn list_end(ws: &[u32], i: usize) -> usize
    requires { i < length ws.now }
    ensures { ListEnd ws.now i result }
{
    let count = word_at(ws, i) as usize;
    if ws.len() - i <= count {
        return ws.len();
    }
    i + 1 + count
}

// The lists from place `from` on, all with the same opening.
fn put_more_lists(
    out: &mut [u8],
    at: usize,
    opening: &[u8],
    none: &[u8],
    ws: &[u32],
    from: usize,
) -> usize
    ensures { page out.new result ≡ write (listed opening.now opening.now none.now (drop from ws.now)) (page out.old at) }
{
    let mut next = at;
    let mut i = from;
    // counts no index: it goes from the end of one list to the end of the next
    while i < ws.len() {
        let end = list_end(ws, i);
        next = put_line(out, next, opening, none, &ws[i + 1..end]);
        i = end;
    }
    next
}

// A line for each list that stands in the words with its count before it.
pub fn put_lists(
    out: &mut [u8],
    at: usize,
    first: &[u8],
    rest: &[u8],
    none: &[u8],
    ws: &[u32],
) -> usize
    ensures { page out.new result ≡ write (listed first.now rest.now none.now ws.now) (page out.old at) }
{
    if ws.len() == 0 {
        return at;
    }
    let end = list_end(ws, 0);
    let next = put_line(out, at, first, none, &ws[1..end]);
    put_more_lists(out, next, rest, none, ws, end)
}
