// Commands that change nothing: the text is read, and the sheet printed.
use batches::Ending;
use clerk_files::{Failed, TEXT, fail, part};
use command_sheets::Manner;
use layout::Refusal;
use std::io;

// A text is refused; where a line is faulty a message names it.
#[derive(Clone, Copy, PartialEq, Eq, Debug)]
pub struct Faulty;

// Says that a text is faulty, and at which line.
fn say_faulty(rt: &HostRuntime, name: &[u8], text: &[u8], line: usize) {
    let mut page = [0u8; clerk_files::PATH];
    let crlf = text_lines::ends_in_cr_lf(text, line);
    let n = messages::put_faulty(name, line as u64, crlf, &mut page, 0);
    clerk_files::say(rt, part(&page, n));
}

// Why a text is refused: the faulty line is named.
fn refuse(rt: &HostRuntime, name: &[u8], text: &[u8], why: Refusal) -> Faulty {
    if let Refusal::BadText(line) = why {
        say_faulty(rt, name, text, line);
    }
    Faulty
}

// Fills table and states from their texts; a text that is faulty is named.
pub fn load(
    rt: &HostRuntime,
    name: &[u8],
    text: &[u8],
    desk: &[u8],
    states: &[u8],
    t: &mut [u32],
    s: &mut [u32],
) -> Result<(), Faulty> {
    if let Err(why) = desk_anew::desk_read_frames(t, s, text) {
        return Err(refuse(rt, name, text, why));
    }
    if states.len() == TEXT {
        clerk_files::say_of(rt, desk, b" is longer than a text of states can be\n");
        return Err(Faulty);
    }
    if let Err(why) = read_states::read_states(t, states, s) {
        return Err(refuse(rt, desk, states, why));
    }
    Ok(())
}

// The table's text, and how many bytes it has.
pub fn written(t: &[u32], text: &mut [u8]) -> usize {
    write_frames::write_frames(t, text).unwrap_or(0)
}

// The states' text, and how many bytes it has.
pub fn states_written(t: &[u32], s: &[u32], text: &mut [u8]) -> usize {
    if !desk_fits::desk_fits(t, s) {
        return 0;
    }
    put_states::put_states(t, s, text, 0)
}

// The value of what went well; what failed is said.
pub fn told<T>(rt: &HostRuntime, name: &[u8], outcome: io::Result<T>) -> Result<T, Failed> {
    match outcome {
        Ok(value) => Ok(value),
        Err(error) => {
            fail(rt, name, &error);
            Err(Failed)
        }
    }
}

// Prints what a run wrote: the sheet of one that is done, else the message.
pub fn print(rt: &HostRuntime, ending: Ending, text: &[u8]) -> Result<Ending, Failed> {
    if ending != Ending::Done {
        clerk_files::say(rt, text);
        return Ok(ending);
    }
    told(rt, b"standard output", rt.stdout().write_all(text))?;
    Ok(ending)
}

pub fn manner(plain: bool, single: bool, makes: bool) -> Manner {
    Manner {
        plain,
        single,
        makes,
    }
}

// Commands that want no file.
pub fn answer_alone(rt: &HostRuntime, batch: &[u8], plain: bool) -> Result<Ending, Failed> {
    let mut t = [0u32; layout::SIZE];
    let mut s = [0u32; layout::VERTEX_LIMIT];
    let mut page = clerk_files::page();
    let how = manner(plain, true, false);
    let ran = batches::run(&mut t, &mut s, how, b"", batch, &mut page);
    print(rt, ran.status, part(&page, ran.length))
}

fn answer_texts(
    rt: &HostRuntime,
    name: &[u8],
    text: &[u8],
    desk: &[u8],
    states: &[u8],
    batch: &[u8],
    single: bool,
    plain: bool,
) -> Result<Ending, Failed> {
    let mut t = [0u32; layout::SIZE];
    let mut s = [0u32; layout::VERTEX_LIMIT];
    if load(rt, name, text, desk, states, &mut t, &mut s).is_err() {
        return Ok(Ending::Refused);
    }
    let mut page = clerk_files::page();
    let how = manner(plain, single, false);
    let ran = batches::run(&mut t, &mut s, how, name, batch, &mut page);
    print(rt, ran.status, part(&page, ran.length))
}

fn answer_text(
    rt: &HostRuntime,
    name: &[u8],
    text: &[u8],
    batch: &[u8],
    single: bool,
    plain: bool,
) -> Result<Ending, Failed> {
    let mut desk = [0u8; clerk_files::PATH];
    let d = clerk_files::put_ending(&mut desk, name, b".desk");
    let mut states = [0u8; TEXT];
    let desk = part(&desk, d);
    let k = told(rt, desk, clerk_files::read_optional(rt, desk, &mut states))?;
    answer_texts(rt, name, text, desk, part(&states, k), batch, single, plain)
}

// The text on standard input; it has no states.
fn answer_input(
    rt: &HostRuntime,
    batch: &[u8],
    single: bool,
    plain: bool,
) -> Result<Ending, Failed> {
    let name = b"standard input";
    let mut text = [0u8; TEXT];
    let n = told(
        rt,
        name,
        clerk_files::read_to_end(&mut rt.stdin(), &mut text, 0),
    )?;
    answer_texts(rt, name, part(&text, n), b"", b"", batch, single, plain)
}

// The file's text.
pub fn answer(
    rt: &HostRuntime,
    name: &[u8],
    batch: &[u8],
    single: bool,
    plain: bool,
) -> Result<Ending, Failed> {
    if clerk_files::is_dash(name) {
        return answer_input(rt, batch, single, plain);
    }
    let mut text = [0u8; TEXT];
    let n = told(rt, name, clerk_files::read_file(rt, name, &mut text))?;
    answer_text(rt, name, part(&text, n), batch, single, plain)
}
