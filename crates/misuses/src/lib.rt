// What is said of a line that is no command, written on a page.
#![tactic(auto)]

ghost use Rattle.std.specs.Prelude.{◌≡◌};
ghost use Rattle.wording.specs.Pages.{page, write};
ghost use Rattle.misuses.specs.Misuses.{spoken, number_text, usage_text, misuse_text};

use commands::Command;
use help_texts::put_help_on;
use messages::{put_ending, put_opening};
use wording::{put_form, put_text};

// What is wrong with a line, as a form with its numbers and the line itself.
fn put_spoken(
    out: &mut [u8],
    at: usize,
    single: bool,
    line: u32,
    form: &[u8],
    ns: &[u32],
    text: &[u8],
) -> usize
    ensures { page out.new result ≡ write (spoken single line form.now ns.now text.now) (page out.old at) }
{
    let a = put_opening(out, at, single, line);
    let b = put_form(out, a, form, ns, text);
    put_ending(out, b, !single)
}

// A word that is no number.
fn put_no_number(out: &mut [u8], at: usize, single: bool, line: u32, p: usize, text: &[u8]) -> usize
    ensures { page out.new result ≡ write (number_text single line p text.now) (page out.old at) }
{
    let ns = [(p % 4294967296) as u32, (p / 4294967296) as u32];
    put_spoken(
        out,
        at,
        single,
        line,
        b"argument K of 'U' is no number from 0 to 4294967295",
        &ns,
        text,
    )
}

// The usage of a command.
fn put_usage(out: &mut [u8], at: usize, single: bool, line: u32, k: usize) -> usize
    ensures { page out.new result ≡ write (usage_text single line k) (page out.old at) }
{
    let a = put_opening(out, at, single, line);
    let b = put_text(out, a, b"usage: vaultsorrel FILE ");
    put_help_on(k, out, b)
}

// What is said of a line that is no command, or of `init` where it can't stand. The text is the line itself.
pub fn put_misuse(
    single: bool,
    line: u32,
    c: Command,
    text: &[u8],
    out: &mut [u8],
    at: usize,
) -> usize
    ensures { page out.new result ≡ write (misuse_text single line c text.now) (page out.old at) }
{
    let none: [u32; 0] = [];
    match c {
        Command::Unknown => put_spoken(
            out,
            at,
            single,
            line,
            b"'U' is no command; help lists them",
            &none,
            text,
        ),
        Command::TooMany => put_spoken(
            out,
            at,
            single,
            line,
            b"a line takes at most 1024 numbers",
            &none,
            text,
        ),
        Command::Init => put_spoken(
            out,
            at,
            single,
            line,
            b"init makes a file that is not there yet, and stands first",
            &none,
            text,
        ),
        Command::NotNumber(p) => put_no_number(out, at, single, line, p, text),
        Command::WrongCount(k) => put_usage(out, at, single, line, k),
        _ => at,
    }
}
