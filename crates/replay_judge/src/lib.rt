// Answers held against recorded ones.
#![tactic(auto)]

ghost use Rattle.std.specs.Prelude.{◌≡◌, min, slice_index};
ghost use Rattle.lists.specs.Tests.{◌and◌};
ghost use Rattle.layout.specs.Answers.{number, detail};
ghost use Rattle.replay.specs.Judging.{given_at, same_reply, answer_at, after_count, counted_at, mixed, sum_of, summed_at, words_at, listed_at, listing_at};

use layout::{Answer, Reply};
use replay::tally::count;
use replay::{Held, Recorded};
use replay_reading::{byte, eight, word};

// A listing of more words than this is recorded by their sum.
pub const LONG: u32 = 16;

// A byte below 240 is answer 0 with that detail; another one is 240 more than the answer's number, and the detail follows as a word.
pub fn given(s: &[u8], at: usize) -> Recorded
    ensures { result ≡ given_at s.now at }
{
    let first = byte(s, at);
    if first.value < 240 {
        return Recorded {
            number: 0,
            detail: first.value,
            at: first.at,
        };
    }
    let detail = word(s, first.at);
    Recorded {
        number: first.value - 240,
        detail: detail.value,
        at: detail.at,
    }
}

pub fn same_reply(r: Reply, g: Recorded) -> bool
    ensures { result ≡ same_reply r.number r.detail g }
{
    r.number == g.number && r.detail == g.detail as u64
}

// An answer without a listing.
pub fn answer(s: &[u8], at: usize, a: Answer, f: usize, tally: &mut [u32]) -> usize
    ensures { after_count result tally.new ≡ counted_at f (answer_at s.now at (number a) (detail a)) tally.old }
{
    let g = given(s, at);
    count(tally, f, same_reply(Reply::from(a), g));
    g.at
}

pub fn word_of(out: &[u32], k: usize) -> u32
    ensures { result ≡ slice_index out.now k }
{
    if k < out.len() {
        return out[k];
    }
    0
}

fn words(s: &[u8], at: usize, out: &[u32], n: usize) -> Held
    ensures { result ≡ words_at s.now at out.now n }
{
    let mut here = at;
    let mut same = true;
    for k in 0..n {
        let w = word(s, here);
        if w.value != word_of(out, k) {
            same = false;
        }
        here = w.at;
    }
    Held { same, at: here }
}

// The sum before the first word.
pub const START: u64 = 11400714819323198485;

// The sum after one word more.
pub fn mix(sum: u64, word: u32) -> u64
    ensures { result ≡ mixed sum word }
{
    let x = sum.wrapping_add(word as u64);
    let a = x ^ (x << 13);
    let b = a ^ (a >> 7);
    b ^ (b << 17)
}

// The sum of the first n words.
pub fn sum(out: &[u32], n: usize) -> u64
    ensures { result ≡ sum_of out.now n }
{
    let mut sum = START;
    for k in 0..n {
        sum = mix(sum, word_of(out, k));
    }
    sum
}

// The sum of the first n bytes.
pub fn sum_of_bytes(s: &[u8], n: usize) -> u64
    ensures { result ≡ sum_of s.now n }
{
    let mut sum = START;
    for k in 0..n {
        let b = byte(s, k);
        sum = mix(sum, b.value);
    }
    sum
}

pub fn summed(s: &[u8], at: usize, sum: u64) -> Held
    ensures { result ≡ summed_at s.now at sum }
{
    let x = eight(s, at);
    Held {
        same: x.value == sum,
        at: x.at,
    }
}

// The smaller of the two.
pub fn at_most(a: usize, b: usize) -> usize
    ensures { result ≡ min a b }
{
    if a < b {
        return a;
    }
    b
}

fn listed(s: &[u8], at: usize, out: &[u32], n: u32) -> Held
    ensures { result ≡ listed_at s.now at out.now n }
{
    if n > LONG {
        return summed(s, at, sum(out, at_most(n as usize, out.len())));
    }
    words(s, at, out, n as usize)
}

// Whether both are.
pub fn both(a: bool, b: bool) -> bool
    ensures { result ≡ (a and b) }
{
    a && b
}

// An answer with the listing that it wrote.
pub fn listing(s: &[u8], at: usize, a: Answer, out: &[u32], f: usize, tally: &mut [u32]) -> usize
    ensures { after_count result tally.new ≡ counted_at f (listing_at s.now at (number a) (detail a) out.now) tally.old }
{
    let g = given(s, at);
    let same = same_reply(Reply::from(a), g);
    if g.number != 0 {
        count(tally, f, same);
        return g.at;
    }
    let h = listed(s, g.at, out, g.detail);
    count(tally, f, both(same, h.same));
    h.at
}
