// The sheets of a tube registered, a transfer recorded and a list replaced. Plain has the number that was given or found, and of a list nothing.
#![tactic(auto)]

ghost use Rattle.std.specs.Prelude.{◌≡◌, cond, []};
ghost use Rattle.layout.specs.Answers.{detail};
ghost use Rattle.wording.specs.Pages.{page, write};
ghost use Rattle.entry_sheets.specs.Entries.{number_alone, tube_said, identical_said, recorded_said, transfer_said, relist_said};

use layout::{Answer, HyperedgeIndex, Reply};
use wording::{put_byte, put_form, put_number, put_text};
use wording_lists::put_line;

fn put_alone(n: u64, out: &mut [u8], at: usize) -> usize
    ensures { page out.new result ≡ write (number_alone n) (page out.old at) }
{
    let a = put_number(out, at, n);
    put_byte(out, a, 10)
}

fn put_tube(n: u64, weight: u32, out: &mut [u8], at: usize) -> usize
    ensures { page out.new result ≡ write (tube_said n weight) (page out.old at) }
{
    let a = put_text(out, at, b"tube ");
    let b = put_number(out, a, n);
    put_form(out, b, b" registered, weight A\n", &[weight], b"")
}

// The sheet of a tube registered; the answer has its number.
pub fn say_tube(plain: bool, answer: Answer, weight: u32, out: &mut [u8], at: usize) -> usize
    ensures { page out.new result ≡ write (cond plain (number_alone (detail answer)) (tube_said (detail answer) weight)) (page out.old at) }
{
    let reply = Reply::from(answer);
    if plain {
        return put_alone(reply.detail, out, at);
    }
    put_tube(reply.detail, weight, out, at)
}

fn put_identical(n: u64, out: &mut [u8], at: usize) -> usize
    ensures { page out.new result ≡ write (identical_said n) (page out.old at) }
{
    let a = put_text(out, at, b"transfer ");
    let b = put_number(out, a, n);
    put_text(out, b, b" is identical, nothing recorded\n")
}

fn put_recorded(n: u64, cost: u32, list: &[u32], out: &mut [u8], at: usize) -> usize
    ensures { page out.new result ≡ write (recorded_said n cost list.now) (page out.old at) }
{
    let a = put_text(out, at, b"transfer ");
    let b = put_number(out, a, n);
    let c = put_form(out, b, b" recorded, cost A", &[cost], b"");
    put_line(out, c, b", tubes ", b"", list)
}

fn put_transfer(n: u64, next: u32, cost: u32, list: &[u32], out: &mut [u8], at: usize) -> usize
    ensures { page out.new result ≡ write (transfer_said n next cost list.now) (page out.old at) }
{
    if n < next as u64 {
        return put_identical(n, out, at);
    }
    put_recorded(n, cost, list, out, at)
}

// The sheet of a transfer recorded, or found; the answer has its number, and next is the next number before.
pub fn say_transfer(
    plain: bool,
    answer: Answer,
    next: u32,
    cost: u32,
    list: &[u32],
    out: &mut [u8],
    at: usize,
) -> usize
    ensures { page out.new result ≡ write (cond plain (number_alone (detail answer)) (transfer_said (detail answer) next cost list.now)) (page out.old at) }
{
    let reply = Reply::from(answer);
    if plain {
        return put_alone(reply.detail, out, at);
    }
    put_transfer(reply.detail, next, cost, list, out, at)
}

// The sheet of a list replaced; plain has none.
pub fn say_relist(plain: bool, e: HyperedgeIndex, list: &[u32], out: &mut [u8], at: usize) -> usize
    ensures { page out.new result ≡ write (cond plain [] (relist_said e.0 list.now)) (page out.old at) }
{
    if plain {
        return at;
    }
    let a = put_form(out, at, b"transfer A now lists", &[e.0], b"");
    put_line(out, a, b" tubes ", b"", list)
}
