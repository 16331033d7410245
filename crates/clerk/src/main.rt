// The program of the bench: `FILE COMMAND ..` carries out one command, `FILE` alone those on standard input, a line each, all or none. It
// ends with the status 0 done, 1 refused, 2 misused, 3 a file could not be read or written.
#![tactic(auto)]

ghost use Rattle.std.specs.Prelude.{◌≡◌};
ghost use Rattle.clerk.specs.declared.Status.TheVariants as variants;

mod file_edits;
mod looks;

use batches::Ending;
use clerk_files::{Failed, arguments, part};
use looks::told;
use std::process::ExitCode;

// What the program ends with: what a run of lines ended with, or a file that could not be read or written.
#[derive(Clone, Copy, PartialEq, Eq, Debug)]
enum Status {
    Ended(Ending),
    Failed,
}

impl From<Ending> for Status {
    ghost from_gives = { λ ending s. s ≡ variants.Ended ending };

    fn from(ending: Ending) -> Self {
        Status::Ended(ending)
    }
}

impl From<Failed> for Status {
    ghost from_gives = { λ _ s. s ≡ variants.Failed };

    fn from(_: Failed) -> Self {
        Status::Failed
    }
}

impl From<Status> for ExitCode {
    fn from(status: Status) -> Self {
        match status {
            Status::Ended(ending) => ExitCode::from(u8::from(ending)),
            Status::Failed => ExitCode::from(3),
        }
    }
}

// Commands for no file: help and version.
fn without_file(
    rt: &HostRuntime,
    name: &[u8],
    line: Option<&[u8]>,
    plain: bool,
) -> Result<Ending, Failed> {
    let mut whole = [0u8; 8192];
    let a = arguments::put_command(&mut whole, name);
    let b = match line {
        Some(rest) => arguments::put_rest(&mut whole, a, rest),
        None => a,
    };
    looks::answer_alone(rt, part(&whole, b), plain)
}

fn with_file(
    rt: &HostRuntime,
    name: &[u8],
    line: Option<&[u8]>,
    plain: bool,
) -> Result<Ending, Failed> {
    if let Some(command) = line {
        if command.is_empty() {
            clerk_files::say(rt, b"vaultsorrel: '' is no command; help lists them\n");
            return Ok(Ending::Misused);
        }
        return serve(rt, name, command, true, plain);
    }
    if clerk_files::is_dash(name) {
        clerk_files::say(
            rt,
            b"vaultsorrel: - is standard input, so the command must follow it\n",
        );
        return Ok(Ending::Misused);
    }
    serve_batch(rt, name, plain)
}

fn serve_batch(rt: &HostRuntime, name: &[u8], plain: bool) -> Result<Ending, Failed> {
    let mut batch = arguments::batch();
    let read = clerk_files::read_to_end(&mut rt.stdin(), &mut batch, 0);
    let n = told(rt, b"standard input", read)?;
    if n == arguments::BATCH {
        clerk_files::say(
            rt,
            b"vaultsorrel: a batch has less than 1048576 bytes; nothing was changed\n",
        );
        return Ok(Ending::Misused);
    }
    serve(rt, name, part(&batch, n), false, plain)
}

// One command, or a batch: a file is made, edited, or looked at.
fn serve(
    rt: &HostRuntime,
    name: &[u8],
    batch: &[u8],
    single: bool,
    plain: bool,
) -> Result<Ending, Failed> {
    if arguments::opens_with_init(batch) {
        return file_edits::edit(rt, true, name, batch, single, plain);
    }
    if batch_changes::has_change(batch) {
        return file_edits::edit(rt, false, name, batch, single, plain);
    }
    looks::answer(rt, name, batch, single, plain)
}

fn start(rt: &HostRuntime) -> Result<Ending, Failed> {
    let mut name = [0u8; arguments::NAME];
    let mut line = arguments::batch();
    let Ok(words) = arguments::gather(rt, &mut name, &mut line) else {
        clerk_files::say(
            rt,
            b"vaultsorrel: an argument is too long, or has a line feed in it\n",
        );
        return Ok(Ending::Misused);
    };
    let Some(n) = words.name else {
        clerk_files::say(
            rt,
            b"vaultsorrel: no file is named; vaultsorrel help says what it takes\n",
        );
        return Ok(Ending::Misused);
    };
    let name = part(&name, n);
    let line = match words.line {
        Some(k) => Some(part(&line, k)),
        None => None,
    };
    if arguments::stands_alone(name) {
        return without_file(rt, name, line, words.plain);
    }
    with_file(rt, name, line, words.plain)
}

fn main(rt: HostRuntime) -> ExitCode {
    let status = match start(&rt) {
        Ok(ending) => Status::from(ending),
        Err(failed) => Status::from(failed),
    };
    ExitCode::from(status)
}
