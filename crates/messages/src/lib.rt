// What is said of a command that was refused, and of a file that has a faulty line, written on a page.
#![tactic(auto)]

ghost use Rattle.std.specs.Prelude.{◌≡◌};
ghost use Rattle.layout.specs.Answers.{number, detail};
ghost use Rattle.wording.specs.Pages.{page, write};
ghost use Rattle.causes.specs.Causes.{is_change};
ghost use Rattle.messages.specs.Messages.{opening, ending, any_change, could_change, refusal_text, fault_ending, faulty_text};

use causes::{put_cause, put_why};
use commands::Command;
use layout::{Answer, Reply};
use wording::{put_form, put_text};

// How a message begins.
pub fn put_opening(out: &mut [u8], at: usize, single: bool, line: u32) -> usize
    ensures { page out.new result ≡ write (opening single line) (page out.old at) }
{
    if single {
        return put_text(out, at, b"vaultsorrel: ");
    }
    let ns = [line];
    put_form(out, at, b"vaultsorrel: line A: ", &ns, b"")
}

// How it ends.
pub fn put_ending(out: &mut [u8], at: usize, change: bool) -> usize
    ensures { page out.new result ≡ write (ending change) (page out.old at) }
{
    if change {
        return put_text(out, at, b"; nothing was changed\n");
    }
    put_text(out, at, b"\n")
}

// A change.
pub fn is_change(c: Command) -> bool
    ensures { result ≡ is_change any_change c }
{
    match c {
        Command::Make(_) => true,
        _ => false,
    }
}

// A change, and any line of a batch, could have changed something.
fn could_change(single: bool, c: Command) -> bool
    ensures { result ≡ could_change single c }
{
    if single {
        return is_change(c);
    }
    true
}

// What is said of a command that was refused. The list holds the numbers that were handed in, the name is the file's, and the walk is a closed
// one where there is no order.
pub fn put_refusal(
    single: bool,
    line: u32,
    c: Command,
    list: &[u32],
    name: &[u8],
    walk: &[u32],
    answer: Answer,
    out: &mut [u8],
    at: usize,
) -> usize
    ensures { page out.new result ≡ write (refusal_text single line c list.now name.now walk.now (number answer) (detail answer)) (page out.old at) }
{
    let reply = Reply::from(answer);
    let a = put_opening(out, at, single, line);
    let b = put_why(out, a, c, list, name, walk, reply.number, reply.detail);
    put_ending(out, b, could_change(single, c))
}

// How what is said of a faulty line ends.
fn put_fault_ending(out: &mut [u8], at: usize, crlf: bool) -> usize
    ensures { page out.new result ≡ write (fault_ending crlf) (page out.old at) }
{
    if crlf {
        return put_text(out, at, b": it ends in CR LF\n");
    }
    put_text(out, at, b"\n")
}

// What is said of a file whose line, counted from 1, is faulty.
pub fn put_faulty(name: &[u8], line: u64, crlf: bool, out: &mut [u8], at: usize) -> usize
    ensures { page out.new result ≡ write (faulty_text name.now line crlf) (page out.old at) }
{
    let none: [u32; 0] = [];
    let a = put_opening(out, at, true, 0);
    let b = put_cause(out, a, 12, line, &none, name);
    put_fault_ending(out, b, crlf)
}
