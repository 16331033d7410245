// Damages the four-line example in every way that one byte can: each of its 114 bytes changed to each of 256, each byte taken out, each of
// 256 bytes put in at each place. `data/text` is the example, `data/lines` a byte for each case: the faulty line, or 0 where the text is
// still accepted. A line for each kind of damage: how many were compared, and how many gave another line.
#![tactic(auto)]

ghost use Rattle.std.specs.Prelude.{◌≡◌, ◌+◌, ◌<◌, ◌≤◌, length};

use std::fs::File;
use std::io;
use std::io::{ErrorKind, Read};
use std::rt::Files;

const TEXT: usize = 114;

const BYTES: usize = 256;

// The places behind the changes and behind what is taken out, in the recorded lines; and how many lines there are.
const TAKEN_AT: usize = 29184;

const PUT_AT: usize = 29298;

const LINES: usize = 58738;

// 1 where the text gives another line than the recorded one, else 0.
fn differs(text: &[u8], line: u8) -> usize
    ensures { result ≤ 1 }
{
    let mut t = [0u32; layout::SIZE];
    let r = layout::Reply::from(read_frames::read_frames(&mut t, text));
    if r.number == 0 {
        return apart(0, line);
    }
    if r.number == 12 {
        return apart(r.detail, line);
    }
    1
}

fn apart(found: u64, line: u8) -> usize
    ensures { result ≤ 1 }
{
    if found == line as u64 {
        return 0;
    }
    1
}

fn byte_of(b: usize) -> u8
    requires { b < 256 }
{
    b as u8
}

// How many of the 256 bytes at the place give another line than those recorded from `from` on.
fn differ_at(text: &mut [u8], at: usize, lines: &[u8], from: usize) -> usize
    requires { (at < length text.old) × (from + 256 ≤ length lines.now) }
    ensures { result ≤ 256 }
{
    let kept = text[at];
    let mut sum = 0;
    for b in 0..BYTES {
        text[at] = byte_of(b);
        sum += differs(text, lines[from + b]);
    }
    text[at] = kept;
    sum
}

fn say(rt: &impl Print, what: &str, compared: usize, differing: usize) -> io::Result<()> {
    println!(rt; "{what}{compared} compared, {differing} differing")
}

fn change(text: &mut [u8; 114], lines: &[u8; 58738]) -> usize {
    let mut sum = 0;
    for at in 0..TEXT {
        sum += differ_at(text, at, lines, at * BYTES);
    }
    sum
}

// The text without its byte at the place: `rest` is it without the first, and gets one byte back with each step.
fn take_out(text: &[u8; 114], lines: &[u8; 58738]) -> usize {
    let mut rest = [0u8; 113];
    for at in 0..113 {
        rest[at] = text[at + 1];
    }
    take_each(text, &mut rest, lines)
}

fn take_each(text: &[u8; 114], rest: &mut [u8; 113], lines: &[u8; 58738]) -> usize {
    let mut sum = 0;
    for at in 0..TEXT {
        sum += differs(rest, lines[TAKEN_AT + at]);
        if at < 113 {
            rest[at] = text[at];
        }
    }
    sum
}

// The text with a byte more at the place: `more` has it in front first, and it moves on by one with each step.
fn put_in(text: &[u8; 114], lines: &[u8; 58738]) -> usize {
    let mut more = [0u8; 115];
    for at in 0..TEXT {
        more[at + 1] = text[at];
    }
    put_each(&mut more, lines)
}

fn put_each(more: &mut [u8; 115], lines: &[u8; 58738]) -> usize {
    let mut sum = 0;
    for at in 0..115 {
        sum += differ_at(more, at, lines, PUT_AT + at * BYTES);
        if at < TEXT {
            more[at] = more[at + 1];
        }
    }
    sum
}

// Fills the slice from the file, or tells that it could not.
fn filled(rt: &(impl Files + Print + Eprint), name: &str, into: &mut [u8]) -> io::Result<bool> {
    let mut file = match File::open(rt, name) {
        Ok(file) => file,
        Err(error) => {
            eprintln!(rt; "{name}: {error}")?;
            return Ok(false);
        }
    };
    match file.read_exact(into) {
        Ok(()) => Ok(true),
        Err(error) if error.kind() == ErrorKind::UnexpectedEof => {
            println!(rt; "{name}: too short")?;
            Ok(false)
        }
        Err(error) => Err(error),
    }
}

fn main(rt: HostRuntime) -> io::Result<()> {
    let mut text = [0u8; TEXT];
    let mut lines = [0u8; LINES];
    if !filled(&rt, "text", &mut text)? {
        return Ok(());
    }
    if !filled(&rt, "lines", &mut lines)? {
        return Ok(());
    }
    say(&rt, "changed: ", TAKEN_AT, change(&mut text, &lines))?;
    say(&rt, "taken out: ", TEXT, take_out(&text, &lines))?;
    say(&rt, "put in: ", LINES - PUT_AT, put_in(&text, &lines))
}
