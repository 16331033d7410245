// What the program says of itself and of its commands, written on a page.
#![tactic(auto)]

ghost use Rattle.std.specs.Prelude.{◌≡◌};
ghost use Rattle.wording.specs.Pages.{page, write};
ghost use Rattle.text_lines.specs.Lines.{line_at};
ghost use Rattle.help_texts.specs.Help.{help_text, help_on, version_text};

use text_lines::{line_end, line_from};
use wording::{put_byte, put_text};

// A line for each command.
const COMMAND_LINES: [u8; 2080] =
    *b"init                    make FILE, a table without tubes\ncheck                   count tubes and transfers, say whether FILE is connected and can be sorted\nshow tube N             a tube, its state and the transfers that list it\nshow transfer N         a transfer, its cost and its tubes\nshow                    all tubes and transfers\ntube WEIGHT             register a tube\ntransfer COST N N ..    record a transfer from tube to tube\nrelist T N N ..         give transfer T another list of tubes\nwithdraw tube N ..      withdraw tubes, all or none\nwithdraw transfer N ..  withdraw transfers, all or none\nmerge V W               tube W was registered twice: it becomes tube V\nsort                    an order of all tubes in which every step goes forward\npath A B                the cheapest path from tube A to tube B\ncosts A                 the least cost from tube A to every tube that is reached\nupstream N              every tube from which tube N is reached\ndownstream N            every tube that is reached from tube N\nnext N                  the tubes right after tube N in some transfer\nbefore N                the tubes right before tube N in some transfer\ncomponents              tubes that are linked, whatever the direction\nstrong                  tubes that reach each other\nclosure                 every pair of tubes of which the first reaches the second\ncut                     tubes without which others are no longer linked\norphans                 tubes that no transfer lists\nendpoints               tubes with no step in, and tubes with no step out\nfind tube WEIGHT        the tubes of a weight\nfind transfer COST      the transfers of a cost\nwalk N STEPS SEED       a random walk from tube N\nreview N                tube N is reviewed\nrelease N ..            release tubes in this order, all or none\norder N ..              whether the desk accepts this order of all tubes\nstates                  the state of every tube, and which can be released now\nhelp                    this list; help COMMAND says one line of it\nversion                 the version\n";

// The version.
pub fn put_version(out: &mut [u8], at: usize) -> usize
    ensures { page out.new result ≡ write version_text (page out.old at) }
{
    put_text(out, at, b"vaultsorrel 0.2.0\n")
}

// All of the help.
pub fn put_help(out: &mut [u8], at: usize) -> usize
    ensures { page out.new result ≡ write help_text (page out.old at) }
{
    let a = put_text(
        out,
        at,
        b"vaultsorrel FILE COMMAND ..      one command\nvaultsorrel FILE                 commands from standard input, a line each: all or none\nvaultsorrel --plain ..           numbers only\n\n",
    );
    let b = put_text(out, a, &COMMAND_LINES);
    put_text(
        out,
        b,
        b"\nFILE is a frame text; - is standard input where nothing is written back. FILE.desk has the states.\nExit status: 0 done, 1 refused, 2 misused, 3 a file could not be read or written.\n",
    )
}

// Line k of a text, without its line feed.
fn put_line_of(out: &mut [u8], at: usize, text: &[u8], k: usize) -> usize
    ensures { page out.new result ≡ write (line_at k text.now) (page out.old at) }
{
    let from = line_from(text, k);
    let end = line_end(text, from);
    put_text(out, at, &text[from..end])
}

// The line of one command.
pub fn put_help_on(k: usize, out: &mut [u8], at: usize) -> usize
    ensures { page out.new result ≡ write (help_on k) (page out.old at) }
{
    let next = put_line_of(out, at, &COMMAND_LINES, k);
    put_byte(out, next, 10)
}
