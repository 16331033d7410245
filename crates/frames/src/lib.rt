// Frame text: bytes and numbers written as capital hexadecimal.
#![tactic(auto)]

ghost use Rattle.std.specs.Prelude.{◌≡◌, ◌+◌, ◌<◌, ◌≤◌, length};
ghost use Rattle.frames.specs.Frames.{byte_values, byte_of, short_bytes, digit, byte_digits, digits};
ghost use Rattle.frames.specs.Put.{number_digits, Put};
ghost use Rattle.frames.specs.Pairs.{Pairs};

const DIGITS: [u8; 16] = *b"0123456789ABCDEF";

// How many values a byte has.
pub const BYTE_VALUES: usize = 256;

// The bytes of a head line, of a vertex line, of a hyperedge line with no member, and of a member.
pub const HEAD_LENGTH: usize = 33;

pub const VERTEX_LENGTH: usize = 21;

pub const HYPEREDGE_LENGTH: usize = 23;

pub const MEMBER_LENGTH: usize = 8;

pub fn wide(x: u32) -> usize
    ensures { result ≡ x }
{
    x as usize
}

pub fn digit(k: u8) -> u8
    requires { k < 16 }
    ensures { result ≡ digit k }
{
    DIGITS[k as usize]
}

// The digits of every byte, made once for a text: those of byte b stand at b * 2.
pub fn byte_pairs() -> [u8; 512]
    ensures { Pairs byte_values result }
{
    // an index into a constant copies the whole of it, so it is copied once
    let digits = DIGITS;
    let mut pairs = [0u8; 512];
    for b in 0..BYTE_VALUES {
        pairs[b * 2] = digits[b / 16];
        pairs[b * 2 + 1] = digits[b % 16];
    }
    pairs
}

// Both digits are read before either is written, so that they can be moved at once.
pub fn put_byte(text: &mut [u8], at: usize, pairs: &[u8; 512], b: u8) -> usize
    requires pairs { Pairs byte_values pairs.now }
    requires at_in_bounds { at + 2 ≤ length text.old }
    ensures { Put at 2 (byte_digits b) text.old text.new result }
{
    let i = b as usize * 2;
    let high = pairs[i];
    let low = pairs[i + 1];
    text[at] = high;
    text[at + 1] = low;
    at + 2
}

// Copies bytes to a place of the text.
pub fn put_bytes(text: &mut [u8], at: usize, bytes: &[u8]) -> usize
    requires { at + length bytes.now ≤ length text.old }
    ensures { Put at (length bytes.now) bytes.now text.old text.new result }
{
    let end = at + bytes.len();
    text[at..end].copy_from_slice(bytes);
    end
}

// The byte of x that counts the units.
pub fn byte_of(x: usize, unit: usize) -> usize
    requires { 0 < unit }
    ensures { result ≡ byte_of x unit }
{
    x / unit % BYTE_VALUES
}

fn put_byte_of(text: &mut [u8], at: usize, pairs: &[u8; 512], x: usize, unit: usize) -> usize
    requires pairs { Pairs byte_values pairs.now }
    requires unit_nonzero { (0 < unit) × (at + 2 ≤ length text.old) }
    ensures { Put at 2 (byte_digits (byte_of x unit)) text.old text.new result }
{
    put_byte(text, at, pairs, byte_of(x, unit) as u8)
}

pub fn put_short(text: &mut [u8], at: usize, pairs: &[u8; 512], x: usize) -> usize
    requires pairs { Pairs byte_values pairs.now }
    requires at_in_bounds { at + 4 ≤ length text.old }
    ensures { Put at 4 (digits (short_bytes x)) text.old text.new result }
{
    let a = put_byte_of(text, at, pairs, x, BYTE_VALUES);
    put_byte_of(text, a, pairs, x, 1)
}

pub fn put_number(text: &mut [u8], at: usize, pairs: &[u8; 512], x: u32) -> usize
    requires pairs { Pairs byte_values pairs.now }
    requires at_in_bounds { at + 8 ≤ length text.old }
    ensures { Put at 8 (number_digits x) text.old text.new result }
{
    let w = wide(x);
    let a = put_byte_of(text, at, pairs, w, 16777216);
    let b = put_byte_of(text, a, pairs, w, 65536);
    let c = put_byte_of(text, b, pairs, w, BYTE_VALUES);
    put_byte_of(text, c, pairs, w, 1)
}
