// Commands carried out, one line after the other, all or none.
#![tactic(auto)]

ghost use Rattle.std.specs.Prelude.{◌≡◌, ◌<◌, length, take};
ghost use Rattle.layout.specs.Layout.{limit, size, vertex_limit};
ghost use Rattle.layout.specs.Answers.{number, detail, result_of};
ghost use Rattle.desk.specs.Desk.{desk_of};
ghost use Rattle.wording.specs.Pages.{page, write};
ghost use Rattle.messages.specs.Messages.{refusal_text};
ghost use Rattle.command_sheets.specs.Commanded.{list_in};
ghost use Rattle.batches.specs.declared.Ending.TheVariants.{Done};
ghost use Rattle.batches.specs.Batches.{exit_status, walk_on, refused, settled, commanded, line_end, carried, lines_of, ended, said, kept, all_or_none, has_lengths, run_of};
ghost use Rattle.batches.specs.Runs.{said_by, ended_by};

use command_sheets::Manner;
use commands::Command;
use layout::{Answer, Refusal, Reply};
use query_sheets::first;
use read_frames::copy_words;

// What the lines so far end with: all are done, one was refused, or one was misused.
#[derive(Clone, Copy, PartialEq, Eq, Debug)]
pub enum Ending {
    Done,
    Refused,
    Misused,
}

// The exit status of rules 19.10.
impl From<Ending> for u8 {
    ghost from_gives = { λ e n. n ≡ exit_status e };

    fn from(e: Ending) -> Self {
        match e {
            Ending::Done => 0,
            Ending::Refused => 1,
            Ending::Misused => 2,
        }
    }
}

// What they end with, and how many bytes stand on the page.
#[derive(Clone, Copy)]
pub struct Ran {
    pub status: Ending,
    pub length: usize,
}

// ---- a refusal

// Writes the closed walk that is named where the sort met 9, and tells how many words it has.
fn walk_named(t: &[u32], number: u32, walk: &mut [u32]) -> usize
    ensures { take result walk.new ≡ walk_on number t.now walk.old }
{
    if number != 9 {
        return 0;
    }
    let a = closed_walk::closed_walk(t, walk);
    let reply = Reply::from(a);
    reply.detail as usize
}

// The message of a refusal, by way of words for a closed walk.
fn refuse_through(
    walk: &mut [u32],
    t: &[u32],
    how: Manner,
    name: &[u8],
    i: u32,
    c: Command,
    ns: &[u32],
    answer: Answer,
    out: &mut [u8],
) -> usize
    ensures { page out.new result ≡ write (refusal_text how.single i c (list_in c ns.now) name.now (walk_on (number answer) t.now walk.old) (number answer) (detail answer)) (page out.old 0) }
{
    let reply = Reply::from(answer);
    let k = walk_named(t, reply.number, walk);
    let list = command_sheets::list_in(c, ns);
    messages::put_refusal(how.single, i, c, list, name, first(walk, k), answer, out, 0)
}

fn refuse(
    t: &[u32],
    how: Manner,
    name: &[u8],
    i: u32,
    c: Command,
    ns: &[u32],
    answer: Answer,
    out: &mut [u8],
) -> Ran
    ensures { said_by result out.new ≡ refused how name.now i c ns.now t.now (result_of answer out.old) }
{
    let mut walk = [0u32; 256];
    let n = refuse_through(&mut walk, t, how, name, i, c, ns, answer, out);
    Ran {
        status: Ending::Refused,
        length: n,
    }
}

// ---- one line

// Done where the page has room for more, else refused.
fn settle_done(
    t: &[u32],
    how: Manner,
    name: &[u8],
    i: u32,
    c: Command,
    ns: &[u32],
    next: usize,
    out: &mut [u8],
) -> Ran
    ensures { said_by result out.new ≡ settled how name.now i c ns.now t.now (result_of (Ok next) out.old) }
{
    if next < out.len() {
        return Ran {
            status: Ending::Done,
            length: next,
        };
    }
    refuse(t, how, name, i, c, ns, Err(Refusal::NoRoom(0)), out)
}

// What a command answered: done, or refused.
fn settle(
    t: &[u32],
    how: Manner,
    name: &[u8],
    i: u32,
    c: Command,
    ns: &[u32],
    answer: Answer,
    out: &mut [u8],
) -> Ran
    ensures { said_by result out.new ≡ settled how name.now i c ns.now t.now (result_of answer out.old) }
{
    let reply = Reply::from(answer);
    if reply.number != 0 {
        return refuse(t, how, name, i, c, ns, answer, out);
    }
    let next = reply.detail as usize;
    settle_done(t, how, name, i, c, ns, next, out)
}

// The i-th line, which says the command with the numbers.
fn run_command(
    t: &mut [u32],
    s: &mut [u32],
    how: Manner,
    name: &[u8],
    i: u32,
    line: &[u8],
    c: Command,
    ns: &[u32],
    out: &mut [u8],
    at: usize,
) -> Ran
    ensures { ended_by result (desk_of t.new s.new) out.new ≡ commanded how name.now i line.now c ns.now (desk_of t.old s.old) (page out.old at) }
{
    if command_sheets::is_misused(how, i, c) {
        let n = misuses::put_misuse(how.single, i, c, line, out, 0);
        return Ran {
            status: Ending::Misused,
            length: n,
        };
    }
    let a = command_sheets::tell(t, s, how, name, c, ns, out, at);
    settle(t, how, name, i, c, ns, a, out)
}

fn run_line(
    t: &mut [u32],
    s: &mut [u32],
    how: Manner,
    name: &[u8],
    i: u32,
    line: &[u8],
    out: &mut [u8],
    at: usize,
) -> Ran
    ensures { ended_by result (desk_of t.new s.new) out.new ≡ line_end how name.now i line.now (desk_of t.old s.old) (page out.old at) }
{
    if line.len() == 0 {
        return Ran {
            status: Ending::Done,
            length: at,
        };
    }
    let mut numbers = [0u32; 1024];
    let p = parse_line::parse(line, &mut numbers);
    let c = p.command;
    let k = p.count;
    run_command(t, s, how, name, i, line, c, first(&numbers, k), out, at)
}

// ---- all lines

fn run_lines(
    t: &mut [u32],
    s: &mut [u32],
    how: Manner,
    name: &[u8],
    batch: &[u8],
    out: &mut [u8],
) -> Ran
    requires { length batch.now < 4294967295 }
    ensures { ended_by result (desk_of t.new s.new) out.new ≡ carried how name.now 1 (lines_of batch.now) (ended (desk_of t.old s.old) (said Done (page out.old 0))) }
{
    let mut at = 0;
    let mut i = 1;
    let mut from = 0;
    // counts no index: it goes from the beginning of one line to the next
    while from < batch.len() {
        let end = text_lines::line_end(batch, from);
        let ran = run_line(t, s, how, name, i, &batch[from..end], out, at);
        if ran.status != Ending::Done {
            return ran;
        }
        at = ran.length;
        i += 1;
        from = text_lines::line_next(batch, from, end);
    }
    Ran {
        status: Ending::Done,
        length: at,
    }
}

// Copies become table and states where every line is done.
fn keep(status: Ending, table: &[u32], states: &[u32], t: &mut [u32], s: &mut [u32])
    requires { (length t.old ≡ length table.now) × (length s.old ≡ length states.now) }
    ensures { desk_of t.new s.new ≡ kept status (desk_of table.now states.now) (desk_of t.old s.old) }
{
    if status != Ending::Done {
        return;
    }
    copy_words(t, table);
    copy_words(s, states);
}

// The lines are carried out on copies.
fn run_on_copies(
    table: &mut [u32],
    states: &mut [u32],
    t: &mut [u32],
    s: &mut [u32],
    how: Manner,
    name: &[u8],
    batch: &[u8],
    out: &mut [u8],
) -> Ran
    requires { (table.old ≡ t.old) × (states.old ≡ s.old) × (length batch.now < 4294967295) }
    ensures { ended_by result (desk_of t.new s.new) out.new ≡ all_or_none (desk_of t.old s.old) (carried how name.now 1 (lines_of batch.now) (ended (desk_of t.old s.old) (said Done (page out.old 0)))) }
{
    let ran = run_lines(table, states, how, name, batch, out);
    keep(ran.status, table, states, t, s);
    ran
}

// The same, by way of words for the copies.
fn run_copied(
    table: &mut [u32],
    states: &mut [u32],
    t: &mut [u32],
    s: &mut [u32],
    how: Manner,
    name: &[u8],
    batch: &[u8],
    out: &mut [u8],
) -> Ran
    requires { (length table.old ≡ length t.old) × (length states.old ≡ length s.old) × (length batch.now < 4294967295) }
    ensures { ended_by result (desk_of t.new s.new) out.new ≡ all_or_none (desk_of t.old s.old) (carried how name.now 1 (lines_of batch.now) (ended (desk_of t.old s.old) (said Done (page out.old 0)))) }
{
    copy_words(table, t);
    copy_words(states, s);
    run_on_copies(table, states, t, s, how, name, batch, out)
}

fn has_lengths(t: &[u32], s: &[u32], batch: &[u8]) -> bool
    ensures { result ≡ has_lengths batch.now (desk_of t.now s.now) }
{
    if t.len() != layout::SIZE {
        return false;
    }
    if s.len() != layout::VERTEX_LIMIT {
        return false;
    }
    batch.len() < 4294967295
}

// Carries out a batch: every line, or, where one is refused or misused, none. The page has the sheets, or the message.
pub fn run(
    t: &mut [u32],
    s: &mut [u32],
    how: Manner,
    name: &[u8],
    batch: &[u8],
    out: &mut [u8],
) -> Ran
    ensures { ended_by result (desk_of t.new s.new) out.new ≡ run_of how name.now batch.now (desk_of t.old s.old) out.old }
{
    if !has_lengths(t, s, batch) {
        return Ran {
            status: Ending::Misused,
            length: 0,
        };
    }
    let mut table = [0u32; layout::SIZE];
    let mut states = [0u32; layout::VERTEX_LIMIT];
    run_copied(&mut table, &mut states, t, s, how, name, batch, out)
}
