// Frame text read back: the values of its digits, and a reader that holds the text and its place.
#![tactic(auto)]

ghost use Rattle.std.specs.Prelude.{◌≡◌, ◌+◌, ◌*◌, ◌≤◌, length};
ghost use Rattle.frames.specs.Reading.{no_value, value, byte_at, short_at, number_at};
ghost use Rattle.reader.specs.Lines.{Valued, line_end};

use frames::BYTE_VALUES;

// The bytes of a frame, with its last: of a vertex, of a hyperedge with no member, and of a member.
pub const VERTEX_BYTES: usize = 10;

pub const HYPEREDGE_BYTES: usize = 11;

pub const MEMBER_BYTES: usize = 4;

// Where a record's number, weight, count and members stand in its line.
pub const NUMBER_AT: usize = 2;

pub const WEIGHT_AT: usize = 10;

pub const COUNT_AT: usize = 18;

pub const MEMBERS_AT: usize = 20;

fn wide_value(x: u16) -> usize
    ensures { result ≡ x }
{
    x as usize
}

// The value of each byte as a digit of capital hexadecimal, from the table of digits; 256 where it is none.
pub fn value_table() -> [u16; 256]
    ensures { Valued result }
{
    let mut values = [256u16; 256];
    for k in 0..16 {
        let c = frames::digit(k);
        values[c as usize] = k as u16;
    }
    values
}

fn value(values: &[u16; 256], c: u8) -> usize
    requires { Valued values.now }
    ensures { (result ≡ value c) × (result ≤ no_value) }
{
    wide_value(values[c as usize])
}

pub fn byte_at(values: &[u16; 256], text: &[u8], at: usize) -> usize
    requires valued { Valued values.now }
    requires at_in_bounds { at + 2 ≤ length text.now }
    ensures { (result ≡ byte_at text.now at) × (result ≤ no_value * 17) }
{
    value(values, text[at]) * 16 + value(values, text[at + 1])
}

pub fn short_at(values: &[u16; 256], text: &[u8], at: usize) -> usize
    requires valued { Valued values.now }
    requires at_in_bounds { at + 4 ≤ length text.now }
    ensures { (result ≡ short_at text.now at) × (result ≤ no_value * 17 * 257) }
{
    byte_at(values, text, at) * BYTE_VALUES + byte_at(values, text, at + 2)
}

pub fn number_at(values: &[u16; 256], text: &[u8], at: usize) -> usize
    requires valued { Valued values.now }
    requires at_in_bounds { at + 8 ≤ length text.now }
    ensures { (result ≡ number_at text.now at) × (result ≤ no_value * 17 * 16843009) }
{
    let a = byte_at(values, text, at);
    let b = byte_at(values, text, at + 2);
    let c = byte_at(values, text, at + 4);
    let d = byte_at(values, text, at + 6);
    a * 16777216 + b * 65536 + c * BYTE_VALUES + d
}

#[derive(Drop)]
pub struct Reader<'a> {
    pub text: &'a [u8],
    pub at: usize,
}

// How many lines of a kind are good, one after the other, and the place behind them.
#[derive(Clone, Copy)]
pub struct Walked {
    pub lines: usize,
    pub at: usize,
}

// The place behind a line of so many bytes, or the same place where no line ends so.
fn line_end(text: &[u8], at: usize, width: usize) -> usize
    ensures { result ≡ line_end text.now at width }
{
    if text.len() < at {
        return at;
    }
    if text.len() - at < width {
        return at;
    }
    if width == 0 {
        return at;
    }
    if text[at + (width - 1)] != b'\n' {
        return at;
    }
    at + width
}

fn reader_at<'a>(text: &'a [u8], at: usize) -> Reader<'a>
    ensures { (result.text ≡ text.entry) × (result.at ≡ at) }
{
    Reader { text, at }
}

// The reader behind its line, if that is of so many bytes.
fn next<'a>(r: Reader<'a>, width: usize) -> Reader<'a>
    ensures { (result.text ≡ r.entry.text) × (result.at ≡ line_end r.entry.text.now r.entry.at width) }
{
    Reader {
        text: r.text,
        at: line_end(r.text, r.at, width),
    }
}

fn place<'a>(r: Reader<'a>) -> usize
    ensures { result ≡ r.entry.at }
{
    r.at
}

// Walks a line of so many bytes: a reader is made at the place and goes on to the next line. It stays where no line ends so.
pub fn walk_line(text: &[u8], at: usize, width: usize) -> usize
    ensures { result ≡ line_end text.now at width }
{
    place(next(reader_at(text, at), width))
}
