// Reading the bytes of the records. A read gives the place after it, and `LOST` where the bytes end too early; reading at `LOST` gives
// `LOST` again, so that a damaged file is never read past its end.
#![tactic(auto)]

ghost use Rattle.std.specs.Prelude.{◌≡◌, ◌+◌, ◌*◌, ◌<◌, ◌≤◌, length, take};
ghost use Rattle.std.specs.Io.{ReadsAtMost};
ghost use Rattle.lists.specs.Lists.{over, tab};
ghost use Rattle.replay.specs.Records.{byte_read, two_read, four_read, eight_read, word_read, after_words, word_number, extent_at, list_at};

use replay::{Extent, LongValue, Value};
use std::fs::File;
use std::io;
use std::io::Read;
use std::rt::Files;

// The place after a record that is not whole. No `Result`: a record whose bytes end too early is carried out and counted all the same, with
// 0 for what is missing, and a `?` after a read would leave that out.
pub const LOST: usize = 18446744073709551615;

// The place after the last record.
pub const WHOLE: usize = 18446744073709551614;

fn wide(b: u8) -> u32
    ensures { (result ≡ b) × (result < 256) }
{
    b as u32
}

pub fn byte(s: &[u8], at: usize) -> Value
    ensures { (result ≡ byte_read s.now at) × (result.value < 256) }
{
    if at < s.len() {
        return Value {
            value: wide(s[at]),
            at: at + 1,
        };
    }
    Value { value: 0, at: LOST }
}

// Two bytes, the low one first.
fn two(s: &[u8], at: usize) -> Value
    ensures { (result ≡ two_read s.now at) × (result.value < 65536) }
{
    let low = byte(s, at);
    let high = byte(s, low.at);
    Value {
        value: low.value + 256 * high.value,
        at: high.at,
    }
}

// Four bytes, the lowest first.
pub fn four(s: &[u8], at: usize) -> Value
    ensures { result ≡ four_read s.now at }
{
    let low = two(s, at);
    let high = two(s, low.at);
    Value {
        value: low.value + 65536 * high.value,
        at: high.at,
    }
}

fn join(low: u32, high: u32) -> u64
    ensures { result ≡ low + 4294967296 * high }
{
    (low as u64) | ((high as u64) << 32)
}

// Eight bytes, the lowest first.
pub fn eight(s: &[u8], at: usize) -> LongValue
    ensures { result ≡ eight_read s.now at }
{
    let low = four(s, at);
    let high = four(s, low.at);
    LongValue {
        value: join(low.value, high.value),
        at: high.at,
    }
}

// A word: a byte below 254; or 254 and two bytes; or 255 and four.
pub fn word(s: &[u8], at: usize) -> Value
    ensures { result ≡ word_read s.now at }
{
    let first = byte(s, at);
    if first.value < 254 {
        return first;
    }
    if first.value == 254 {
        return two(s, first.at);
    }
    four(s, first.at)
}

fn fill(s: &[u8], at: usize, list: &mut [u32], n: usize) -> usize
    requires { n ≤ length list.old }
    ensures { (result ≡ after_words s.now at n) × (list.new ≡ over (tab (word_number s.now at) n) list.old) }
{
    let mut here = at;
    for k in 0..n {
        let w = word(s, here);
        list[k] = w.value;
        here = w.at;
    }
    here
}

// A list: its length in a byte, then its words, which come to the front of `list`. A longer one than `list` is not read.
pub fn list(s: &[u8], at: usize, list: &mut [u32]) -> Extent
    ensures { (result ≡ extent_at s.now at (length list.old)) × ((list.new ≡ over (list_at s.now at (length list.old)) list.old) × ((result.count ≤ length list.new) × (result.count ≡ length (take result.count list.new)))) }
{
    let n = byte(s, at);
    let count = n.value as usize;
    if count > list.len() {
        return Extent { count: 0, at: LOST };
    }
    let end = fill(s, n.at, list, count);
    Extent { count, at: end }
}

// How many bytes of the file `cases` were read into `bytes`: none where there is no such file, which is said on standard error.
pub fn file(rt: &(impl Files + Eprint), bytes: &mut [u8]) -> io::Result<usize>
    ensures { ReadsAtMost result bytes.new }
{
    match File::open(rt, "cases") {
        Ok(mut cases) => read_full(&mut cases, bytes),
        Err(error) => {
            eprintln!(rt; "cases: {error}")?;
            Ok(0)
        }
    }
}

// Reads until `bytes` is full or the input ends, and tells how many bytes it put at the front.
fn read_full<R: Read>(from: &mut R, bytes: &mut [u8]) -> io::Result<usize>
    ensures { ReadsAtMost result bytes.new }
{
    let mut done = 0;
    // counts no index: a turn goes on by as many bytes as the read handed over
    while done < bytes.len() {
        let n = from.read(&mut bytes[done..])?;
        if n == 0 {
            break;
        }
        done += n;
    }
    Ok(done)
}
