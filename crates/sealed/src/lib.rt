// Whether a line is a frame, and whether what it says fits.
#![tactic(auto)]

ghost use Rattle.std.specs.Prelude.{◌≡◌, ◌+◌, ◌*◌, ◌≤◌, length};
ghost use Rattle.frames.specs.Frames.{vertex_length};
ghost use Rattle.frames.specs.Reading.{stands_at};
ghost use Rattle.reader.specs.Lines.{Valued, behind, frame_sum, sealed_at, Sealed, counts_fit, number_fits, vertex_fits};

use frames::BYTE_VALUES;
use reader::{NUMBER_AT, VERTEX_BYTES, byte_at, number_at, walk_line};

// The byte sum of k bytes, or 1 where a digit is none.
fn frame_sum(values: &[u16; 256], text: &[u8], at: usize, k: usize) -> usize
    requires valued { Valued values.now }
    requires k_in_bounds { (at + k * 2 ≤ length text.now) × (k ≤ 256) }
    ensures { result ≡ frame_sum text.now at k }
{
    let mut sum = 0;
    for i in 0..k {
        let b = byte_at(values, text, at + i * 2);
        if BYTE_VALUES <= b {
            return 1;
        }
        sum += b;
    }
    sum
}

// The text has the bytes at the place.
pub fn stands_at(text: &[u8], at: usize, bytes: &[u8]) -> bool
    requires { at + length bytes.now ≤ length text.now }
    ensures { result ≡ stands_at text.now at bytes.now }
{
    &text[at..at + bytes.len()] == bytes
}

// The place behind the line at the place, where that is a frame of k bytes, its last byte and its line feed included in the test; else
// the same place.
pub fn frame_end(values: &[u16; 256], text: &[u8], at: usize, k: usize) -> usize
    requires valued { Valued values.now }
    requires at_in_bounds { (at ≤ length text.now) × (k ≤ 256) }
    ensures { result ≡ behind (sealed_at text.now at k) at (k * 2 + 1) }
{
    let end = walk_line(text, at, k * 2 + 1);
    if end == at {
        return at;
    }
    if frame_sum(values, text, at, k) % BYTE_VALUES != 0 {
        return at;
    }
    end
}

// The counts of a head fit; vertex and hyperedge are the next numbers.
pub fn counts_fit(n: usize, m: usize, vertex: usize, hyperedge: usize) -> bool
    ensures { result ≡ counts_fit n m vertex hyperedge }
{
    if layout::VERTEX_LIMIT < n {
        return false;
    }
    if layout::HYPEREDGE_LIMIT < m {
        return false;
    }
    if vertex < n {
        return false;
    }
    if hyperedge < m {
        return false;
    }
    if m == 0 {
        return true;
    }
    0 < n
}

// The number is from low to high.
pub fn number_fits(x: usize, low: usize, high: usize) -> bool
    ensures { result ≡ number_fits x low high }
{
    if x < low {
        return false;
    }
    x <= high
}

// The place behind the vertex line at the place, where it fits; else the same place.
pub fn vertex_end(values: &[u16; 256], text: &[u8], at: usize, low: usize, high: usize) -> usize
    requires valued { Valued values.now }
    requires at_in_bounds { at ≤ length text.now }
    ensures { result ≡ behind (vertex_fits text.now at low high) at vertex_length }
{
    let end = frame_end(values, text, at, VERTEX_BYTES);
    if end == at {
        return at;
    }
    if !sealed_vertex_fits(values, text, at, low, high) {
        return at;
    }
    end
}

fn sealed_vertex_fits(values: &[u16; 256], text: &[u8], at: usize, low: usize, high: usize) -> bool
    requires valued { Valued values.now }
    requires sealed { Sealed text.now at 10 }
    ensures { result ≡ vertex_fits text.now at low high }
{
    if byte_at(values, text, at) != 1 {
        return false;
    }
    number_fits(number_at(values, text, at + NUMBER_AT), low, high)
}
