// What is read, put into words.
#![tactic(auto)]

ghost use Rattle.std.specs.Prelude.{◌≡◌, ◌+◌, ◌*◌, ◌<◌, ◌≤◌, [], ◌∷◌, length};
ghost use Rattle.lists.specs.Lists.{tab};
ghost use Rattle.layout.specs.Content.{is_live, vertex_of};
ghost use Rattle.layout.specs.Layout.{limit, vertex_limit, size, vertex_words};
ghost use Rattle.layout.specs.Inner.{vertex_column};
ghost use Rattle.frames.specs.Put.{Put};
ghost use Rattle.frames.specs.Reading.{number_in, weight_in, member_in};
ghost use Rattle.reader.specs.Lines.{Valued, Sealed};
ghost use Rattle.reader.specs.Passes.{Live};

use frames::MEMBER_LENGTH;
use reader::{MEMBERS_AT, NUMBER_AT, WEIGHT_AT, number_at};

// Where x stands among the vertices, if it does, by eight steps that do not wait for one another's outcome: a hint, of which nothing
// more is promised. No step looks at the first record, so a number of 0 is that of an unused one, and less 1 it is above all others.
fn place_near(words: &[u32], x: u32) -> usize
    requires { length words.now ≡ size limit }
    ensures { result < vertex_limit }
{
    let mut p = 0;
    let mut half = 128;
    // It counts no index: half is halved each turn.
    while 0 < half {
        if std::num::wrapping_sub_u32(layout::vertex_number(words, p + half), 1) < x {
            p += half;
        }
        half /= 2;
    }
    p
}

// The vertex x is among those whose records stand in the words. Where as many are live as numbers were given, its number is its
// place; else it stands where the hint says, or a search decides.
pub fn is_live(words: &[u32], x: usize) -> bool
    requires live { Live words.now }
    requires x_bound { x < 4294967296 }
    ensures { result ≡ is_live (vertex_column words.now) x }
{
    let n = layout::vertex_count(words);
    if wide_word(layout::next_vertex(words)) == n {
        return x < n;
    }
    let p = place_near(words, x as u32);
    if p < n {
        if wide_word(layout::vertex_number(words, p)) == x {
            return true;
        }
    }
    find::find_number(words, layout::VERTICES_AT, layout::VERTEX_SIZE, n, x as u32).is_some()
}

pub fn wide_word(x: u32) -> usize
    ensures { (result ≡ x) × (result < 4294967296) }
{
    x as usize
}

pub fn put_word(words: &mut [u32], to: usize, x: usize) -> usize
    requires { (to < length words.old) × (x < 4294967296) }
    ensures { Put to 1 (x ∷ []) words.old words.new result }
{
    words[to] = x as u32;
    to + 1
}

// Stores the vertex whose line stands at the place.
pub fn put_vertex(
    words: &mut [u32],
    to: usize,
    values: &[u16; 256],
    text: &[u8],
    at: usize,
) -> usize
    requires valued { Valued values.now }
    requires sealed { Sealed text.now at 10 × (to + 2 ≤ length words.old) }
    ensures { Put to 2 (vertex_words (vertex_of (number_in text.now at) (weight_in text.now at))) words.old words.new result }
{
    let a = put_word(words, to, number_at(values, text, at + NUMBER_AT));
    put_word(words, a, number_at(values, text, at + WEIGHT_AT))
}

pub fn put_members(
    words: &mut [u32],
    to: usize,
    values: &[u16; 256],
    text: &[u8],
    at: usize,
    k: usize,
) -> usize
    requires valued { Valued values.now }
    requires sealed { Sealed text.now at (11 + k * 4) × (to + k ≤ length words.old) }
    ensures { Put to k (tab (member_in text.now at) k) words.old words.new result }
{
    let mut next = to;
    for i in 0..k {
        let x = number_at(values, text, at + MEMBERS_AT + i * MEMBER_LENGTH);
        next = put_word(words, next, x);
    }
    next
}
