// A command carried out, with what it says on a page.
#![tactic(auto)]

ghost use Rattle.std.specs.Prelude.{◌≡◌, [], drop, eqb};
ghost use Rattle.lists.specs.Tests.{◌and◌};
ghost use Rattle.desk.specs.Desk.{desk_of};
ghost use Rattle.wording.specs.Texts.{text};
ghost use Rattle.wording.specs.Pages.{page, write};
ghost use Rattle.wording.specs.Forms.{filled};
ghost use Rattle.changes.specs.Changes.{told};
ghost use Rattle.command_sheets.specs.Commanded.{list_of, list_in, command_told, is_misused};

use commands::{Change, Command};
use layout::Answer;

// How a batch is carried out: in numbers alone, as a single command, for a file that is made.
#[derive(Clone, Copy)]
pub struct Manner {
    pub plain: bool,
    pub single: bool,
    pub makes: bool,
}

// The numbers behind the first.
fn behind_first(ns: &[u32]) -> &[u32]
    ensures { result.now ≡ drop 1 ns.now }
{
    if 1 <= ns.len() {
        return &ns[1..];
    }
    ns
}

// The numbers that a change takes as its list.
fn list_of(c: Change, ns: &[u32]) -> &[u32]
    ensures { result.now ≡ list_of c ns.now }
{
    match c {
        Change::Tube(_) => ns,
        Change::Transfer(_) => behind_first(ns),
        Change::Relist(_) => behind_first(ns),
        Change::WithdrawTubes => ns,
        Change::WithdrawTransfers => ns,
        Change::Merge(_, _) => ns,
        Change::Review(_) => ns,
        Change::Release => ns,
    }
}

// Those of any command.
pub fn list_in(c: Command, ns: &[u32]) -> &[u32]
    ensures { result.now ≡ list_in c ns.now }
{
    match c {
        Command::Init => ns,
        Command::Ask(_) => ns,
        Command::View(_) => ns,
        Command::Make(change) => list_of(change, ns),
        Command::Help => ns,
        Command::HelpOn(_) => ns,
        Command::Version => ns,
        Command::Unknown => ns,
        Command::NotNumber(_) => ns,
        Command::WrongCount(_) => ns,
        Command::TooMany => ns,
    }
}

// Carries out a command on the page.
pub fn tell(
    t: &mut [u32],
    s: &mut [u32],
    how: Manner,
    name: &[u8],
    c: Command,
    ns: &[u32],
    out: &mut [u8],
    at: usize,
) -> Answer
    ensures { told result (desk_of t.new s.new) out.new ≡ command_told how name.now c ns.now (desk_of t.old s.old) (page out.old at) }
{
    let plain = how.plain;
    match c {
        Command::Init => Ok(put_made(name, out, at)),
        Command::Ask(q) => query_sheets::put_query(t, q, plain, out, at),
        Command::View(look) => look_sheets::put_look(t, s, look, ns, plain, out, at),
        Command::Make(change) => {
            let list = list_of(change, ns);
            change_sheets::make_change(t, s, change, list, plain, out, at)
        }
        Command::Help => Ok(help_texts::put_help(out, at)),
        Command::HelpOn(k) => Ok(help_texts::put_help_on(k, out, at)),
        Command::Version => Ok(help_texts::put_version(out, at)),
        Command::Unknown => Ok(at),
        Command::NotNumber(_) => Ok(at),
        Command::WrongCount(_) => Ok(at),
        Command::TooMany => Ok(at),
    }
}

fn put_made(name: &[u8], out: &mut [u8], at: usize) -> usize
    ensures { page out.new result ≡ write (filled (text "U made\n") [] name.now) (page out.old at) }
{
    let none: [u32; 0] = [];
    wording::put_form(out, at, b"U made\n", &none, name)
}

// Whether the i-th line is no command, or `init` where it does not stand first for a file that is made.
pub fn is_misused(how: Manner, i: u32, c: Command) -> bool
    ensures { result ≡ is_misused how i c }
{
    match c {
        Command::Init => !stands_first(how, i),
        Command::Ask(_) => false,
        Command::View(_) => false,
        Command::Make(_) => false,
        Command::Help => false,
        Command::HelpOn(_) => false,
        Command::Version => false,
        Command::Unknown => true,
        Command::NotNumber(_) => true,
        Command::WrongCount(_) => true,
        Command::TooMany => true,
    }
}

// The first line, for a file that is made.
fn stands_first(how: Manner, i: u32) -> bool
    ensures { result ≡ (how.makes and eqb i 1) }
{
    if !how.makes {
        return false;
    }
    i == 1
}
