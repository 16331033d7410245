// The lines of hyperedges.
#![tactic(auto)]

ghost use Rattle.std.specs.Prelude.{◌≡◌, false, ◌+◌, ◌*◌, ◌<◌, ◌≤◌, length};
ghost use Rattle.lists.specs.Lists.{all, tab, pad};
ghost use Rattle.layout.specs.Content.{is_live};
ghost use Rattle.layout.specs.Layout.{limit, hyperedge_limit, record_size, hyperedge_words};
ghost use Rattle.layout.specs.Inner.{vertex_column};
ghost use Rattle.frames.specs.Frames.{hyperedge_length};
ghost use Rattle.frames.specs.Put.{Put};
ghost use Rattle.frames.specs.Reading.{next_hyperedge_of, vertices_due, hyperedges_due, vertex_place, count_in, member_in, hyperedge_from, hyperedge_good};
ghost use Rattle.reader.specs.Lines.{Valued, Sealed};
ghost use Rattle.reader.specs.Passes.{Live};
ghost use Rattle.reader.specs.Hyperedges.{VerticesStored, HyperedgeRead, HyperedgesRead};

use frames::HYPEREDGE_LENGTH;
use put_read::{is_live, put_members, put_word, wide_word};
use reader::{
    COUNT_AT, HYPEREDGE_BYTES, MEMBER_BYTES, NUMBER_AT, WEIGHT_AT, Walked, byte_at, number_at,
};
use sealed::{frame_end, number_fits};

// Every vertex of the list is live.
fn list_live(words: &[u32], list: &[u32]) -> bool
    requires { Live words.now }
    ensures { result ≡ all (is_live (vertex_column words.now)) list.now }
{
    for i in 0..list.len() {
        if !is_live(words, wide_word(list[i])) {
            return false;
        }
    }
    true
}

fn put_words(words: &mut [u32], to: usize, list: &[u32]) -> usize
    requires { to + length list.now ≤ length words.old }
    ensures { Put to (length list.now) list.now words.old words.new result }
{
    let end = to + list.len();
    words[to..end].copy_from_slice(list);
    end
}

// Stores the hyperedge of the line at the place, whose k members, and 0 behind them, are the list.
fn put_hyperedge(
    words: &mut [u32],
    to: usize,
    values: &[u16; 256],
    text: &[u8],
    at: usize,
    k: usize,
    list: &[u32],
) -> usize
    requires valued { Valued values.now }
    requires sealed { Sealed text.now at (11 + k * 4) × ((k ≡ count_in text.now at) × (k ≤ limit)) }
    requires list_value { list.now ≡ pad limit (tab (member_in text.now at) k) }
    requires limit_in_bounds { to + record_size limit ≤ length words.old }
    ensures { Put to (record_size limit) (hyperedge_words limit (hyperedge_from text.now at)) words.old words.new result }
{
    let a = put_word(words, to, number_at(values, text, at + NUMBER_AT));
    let b = put_word(words, a, number_at(values, text, at + WEIGHT_AT));
    let c = put_word(words, b, k);
    put_words(words, c, list)
}

// Judges the hyperedge line at the place, which is a frame that ends at `end`, and stores it at `to` where it fits: the place behind it;
// else the same place. Its k members, and 0 behind them, are the list.
fn put_fitting(
    words: &mut [u32],
    to: usize,
    values: &[u16; 256],
    text: &[u8],
    at: usize,
    end: usize,
    k: usize,
    low: usize,
    high: usize,
    list: &[u32],
) -> usize
    requires valued { Valued values.now }
    requires live { Live words.old }
    requires sealed { Sealed text.now at (11 + k * 4) × ((k ≡ count_in text.now at) × ((0 < k) × (k ≤ limit))) }
    requires list_value { list.now ≡ pad limit (tab (member_in text.now at) k) }
    requires limit_in_bounds { (to + record_size limit ≤ length words.old) × (end ≡ at + hyperedge_length k) }
    ensures { HyperedgeRead text.now at low high to words.old words.new result }
{
    if byte_at(values, text, at) != 2 {
        return at;
    }
    if !number_fits(number_at(values, text, at + NUMBER_AT), low, high) {
        return at;
    }
    if !list_live(words, &list[..k]) {
        return at;
    }
    put_hyperedge(words, to, values, text, at, k, list);
    end
}

// Judges the hyperedge line at the place, and stores it at `to` where it fits: the place behind it; else the same place.
fn read_hyperedge(
    words: &mut [u32],
    to: usize,
    values: &[u16; 256],
    text: &[u8],
    at: usize,
    low: usize,
    high: usize,
) -> usize
    requires valued { Valued values.now }
    requires live { Live words.old }
    requires at_in_bounds { (at ≤ length text.now) × (to + record_size limit ≤ length words.old) }
    ensures { HyperedgeRead text.now at low high to words.old words.new result }
{
    if text.len() - at < HYPEREDGE_LENGTH {
        return at;
    }
    let k = byte_at(values, text, at + COUNT_AT);
    if k == 0 {
        return at;
    }
    if layout::MEMBER_LIMIT < k {
        return at;
    }
    let end = frame_end(values, text, at, HYPEREDGE_BYTES + k * MEMBER_BYTES);
    if end == at {
        return at;
    }
    let mut list = [0u32; layout::MEMBER_LIMIT];
    put_members(&mut list, 0, values, text, at, k);
    put_fitting(words, to, values, text, at, end, k, low, high, &list)
}

// Judges the m hyperedge lines from the place on, one after the other, and stores each that is good, up to the first that is not. next
// is the next hyperedge number.
fn hyperedges_from(
    words: &mut [u32],
    values: &[u16; 256],
    text: &[u8],
    place: usize,
    m: usize,
    next: usize,
) -> Walked
    requires valued { Valued values.now }
    requires vertices_stored { VerticesStored text.now words.old }
    requires place_value { place ≡ vertex_place (vertices_due text.now) }
    requires m_value { (m ≡ hyperedges_due text.now) × (next ≡ next_hyperedge_of text.now) }
    requires m_le_hyperedge_limit { (m ≤ hyperedge_limit) × (m ≤ next) }
    ensures hyperedges_read { HyperedgesRead text.now (hyperedges_due text.now) words.old words.new result.lines result.at }
    ensures lines_value { result.lines < hyperedges_due text.now → hyperedge_good text.now result.lines ≡ false }
{
    let mut at = place;
    let mut low = 0;
    let mut to = layout::HYPEREDGES_AT;
    for i in 0..m {
        let end = read_hyperedge(words, to, values, text, at, low, next - (m - i));
        if end == at {
            return Walked { lines: i, at };
        }
        low = number_at(values, text, at + NUMBER_AT) + 1;
        at = end;
        to += layout::RECORD_SIZE;
    }
    Walked { lines: m, at }
}

// The same, with the head's numbers from the words.
pub fn read_hyperedges(words: &mut [u32], values: &[u16; 256], text: &[u8], place: usize) -> Walked
    requires valued { Valued values.now }
    requires vertices_stored { VerticesStored text.now words.old }
    requires place_value { place ≡ vertex_place (vertices_due text.now) }
    ensures hyperedges_read { HyperedgesRead text.now (hyperedges_due text.now) words.old words.new result.lines result.at }
    ensures lines_value { result.lines < hyperedges_due text.now → hyperedge_good text.now result.lines ≡ false }
{
    let m = layout::hyperedge_count(words);
    let next = wide_word(layout::next_hyperedge(words));
    hyperedges_from(words, values, text, place, m, next)
}
