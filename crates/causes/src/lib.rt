// Why a command was refused, written on a page.
#![tactic(auto)]

ghost use Rattle.std.specs.Prelude.{◌≡◌};
ghost use Rattle.lists.specs.Lists.{word_at};
ghost use Rattle.wording.specs.Pages.{page, write};
ghost use Rattle.wording.specs.Forms.{filled};
ghost use Rattle.text_lines.specs.Lines.{line_at};
ghost use Rattle.causes.specs.Causes.{named, cause, is_change, transfer_tray, cause_number, walk_text, no_order, cause_text};

use commands::{Change, Command};
use text_lines::{line_end, line_from};
use wording::{put_form, put_text};
use wording_lists::put_joined;

// The causes, a line each.
const CAUSES: [u8; 729] =
    *b"done\nthe table is not well formed (1)\na transfer wants at least one tube (2)\ntube K is not in U (3)\ntransfer K is not in U (4)\ntransfer K has this list already (5)\na list of K tubes is too long (6)\nU has no room for one more (7)\nU has given out its last number (8)\nno order (9)\nfewer than two transfers (10)\nthe sheet is too long (11)\nU line K is faulty (12)\ntube K can't be merged into itself (13)\ntransfer K lists the two tubes side by side (14)\ntube C, place D of the tray, is not in U (15)\n(16)\ntube K is not reviewed (17)\nupstream tube K is not released (18)\nthe order fails at place D, tube C (19)\ntube K stands twice in a row (20)\ntransfer C, place D of the tray, is not in U (15)\nthe order stops short after K tubes (19)\n";

// The handed-in number at a place, or 0.
fn listed_at(list: &[u32], i: u64) -> u32
    ensures { result ≡ word_at list.now i }
{
    if i < list.len() as u64 {
        return list[i as usize];
    }
    0
}

// The numbers that a cause can name.
fn named(detail: u64, list: &[u32]) -> [u32; 4]
    ensures { result ≡ named detail list.now }
{
    let low = (detail % 4294967296) as u32;
    let high = (detail / 4294967296) as u32;
    let place = ((detail % 4294967296 + 1) % 4294967296) as u32;
    [low, high, listed_at(list, detail), place]
}

// Line k of a text, as a form filled in.
fn put_form_of(out: &mut [u8], at: usize, text: &[u8], k: usize, ns: &[u32], name: &[u8]) -> usize
    ensures { page out.new result ≡ write (filled (line_at k text.now) ns.now name.now) (page out.old at) }
{
    let from = line_from(text, k);
    let end = line_end(text, from);
    put_form(out, at, &text[from..end], ns, name)
}

// Line k of the causes.
pub fn put_cause(
    out: &mut [u8],
    at: usize,
    k: usize,
    detail: u64,
    list: &[u32],
    name: &[u8],
) -> usize
    ensures { page out.new result ≡ write (cause k detail list.now name.now) (page out.old at) }
{
    let ns = named(detail, list);
    put_form_of(out, at, &CAUSES, k, &ns, name)
}

// A tray of transfers.
fn transfer_tray(m: Change) -> bool
    ensures { result ≡ transfer_tray m }
{
    match m {
        Change::WithdrawTransfers => true,
        _ => false,
    }
}

fn of_transfers(c: Command) -> bool
    ensures { result ≡ is_change transfer_tray c }
{
    match c {
        Command::Make(m) => transfer_tray(m),
        _ => false,
    }
}

// The line of a refusal among the causes.
fn cause_number(c: Command, count: usize, number: u32, detail: u64) -> usize
    ensures { result ≡ cause_number c count number detail }
{
    if number == 15 {
        if of_transfers(c) {
            return 21;
        }
        return 15;
    }
    if number == 19 {
        if detail == count as u64 {
            return 22;
        }
        return 19;
    }
    number as usize
}

// A closed walk.
fn put_walk(out: &mut [u8], at: usize, walk: &[u32]) -> usize
    ensures { page out.new result ≡ write (walk_text walk.now) (page out.old at) }
{
    if walk.len() == 0 {
        return at;
    }
    if walk.len() == 1 {
        return put_form(out, at, b": tube A leads back to itself", walk, b"");
    }
    let a = put_text(out, at, b": tubes ");
    let b = put_joined(out, a, walk);
    put_form(out, b, b" lead back to A", walk, b"")
}

fn put_no_order(out: &mut [u8], at: usize, walk: &[u32]) -> usize
    ensures { page out.new result ≡ write (no_order walk.now) (page out.old at) }
{
    let a = put_text(out, at, b"no order");
    let b = put_walk(out, a, walk);
    put_text(out, b, b" (9)")
}

// Why a command was refused.
pub fn put_why(
    out: &mut [u8],
    at: usize,
    c: Command,
    list: &[u32],
    name: &[u8],
    walk: &[u32],
    number: u32,
    detail: u64,
) -> usize
    ensures { page out.new result ≡ write (cause_text c list.now name.now walk.now number detail) (page out.old at) }
{
    if number == 9 {
        return put_no_order(out, at, walk);
    }
    let k = cause_number(c, list.len(), number, detail);
    put_cause(out, at, k, detail, list, name)
}
