// Lines: their sums, their ends, the head and what opens a record.
#![tactic(auto)]

ghost use Rattle.std.specs.Prelude.{◌≡◌, ◌++◌, ◌+◌, ◌≤◌, length};
ghost use Rattle.frames.specs.Frames.{byte_values, number_bytes, short_bytes, head_frame, byte_sum, balance, byte_digits, line_feed, line, head_length};
ghost use Rattle.frames.specs.Put.{number_digits, Put};
ghost use Rattle.frames.specs.Pairs.{Pairs};

use frames::{BYTE_VALUES, byte_of, put_byte, put_bytes, put_number, put_short, wide};

fn short_sum(x: usize) -> usize
    ensures { (result ≡ byte_sum (short_bytes x)) × (result ≤ 510) }
{
    byte_of(x, BYTE_VALUES) + byte_of(x, 1)
}

pub fn number_sum(x: u32) -> usize
    ensures { (result ≡ byte_sum (number_bytes x)) × (result ≤ 1020) }
{
    let w = wide(x);
    byte_of(w, 16777216) + byte_of(w, 65536) + byte_of(w, BYTE_VALUES) + byte_of(w, 1)
}

// The byte that makes the sum 0 modulo 256.
fn balance(sum: usize) -> usize
    ensures { result ≡ balance sum }
{
    (BYTE_VALUES - sum % BYTE_VALUES) % BYTE_VALUES
}

// The last byte of a frame whose bytes before it have the sum, and the line feed.
pub fn put_end(text: &mut [u8], at: usize, pairs: &[u8; 512], sum: usize) -> usize
    requires pairs { Pairs byte_values pairs.now }
    requires at_in_bounds { at + 3 ≤ length text.old }
    ensures { Put at 3 (byte_digits (balance sum) ++ line_feed) text.old text.new result }
{
    let a = put_byte(text, at, pairs, balance(sum) as u8);
    put_bytes(text, a, b"\n")
}

// The head line, from the front of the text on; vertex and hyperedge are the next numbers.
pub fn put_head(
    text: &mut [u8],
    pairs: &[u8; 512],
    vertex: u32,
    hyperedge: u32,
    n: usize,
    m: usize,
) -> usize
    requires pairs { Pairs byte_values pairs.now }
    requires head_length_in_bounds { head_length ≤ length text.old }
    ensures { Put 0 head_length (line (head_frame vertex hyperedge n m)) text.old text.new result }
{
    let a = put_bytes(text, 0, b"484731");
    let b = put_number(text, a, pairs, vertex);
    let c = put_number(text, b, pairs, hyperedge);
    let d = put_short(text, c, pairs, n);
    let e = put_short(text, d, pairs, m);
    let numbers = number_sum(vertex) + number_sum(hyperedge);
    let counts = short_sum(n) + short_sum(m);
    put_end(text, e, pairs, 0x48 + 0x47 + 0x31 + numbers + counts)
}

// What the line of a vertex and that of a hyperedge begin with: the kind, the number, the weight.
pub fn put_record(
    text: &mut [u8],
    at: usize,
    pairs: &[u8; 512],
    kind: u8,
    number: u32,
    weight: u32,
) -> usize
    requires pairs { Pairs byte_values pairs.now }
    requires at_in_bounds { at + 18 ≤ length text.old }
    ensures { Put at 18 (byte_digits kind ++ (number_digits number ++ number_digits weight)) text.old text.new result }
{
    let a = put_byte(text, at, pairs, kind);
    let b = put_number(text, a, pairs, number);
    put_number(text, b, pairs, weight)
}
