// The lines of vertices.
#![tactic(auto)]

ghost use Rattle.std.specs.Prelude.{◌≡◌, ◌≤◌, length};
ghost use Rattle.layout.specs.Layout.{limit, size, vertex_limit};
ghost use Rattle.frames.specs.Frames.{head_length};
ghost use Rattle.frames.specs.Reading.{next_vertex_of, vertices_due};
ghost use Rattle.reader.specs.Lines.{Valued};
ghost use Rattle.reader.specs.Passes.{HeadStored, VerticesRead};

use put_read::{put_vertex, wide_word};
use reader::{NUMBER_AT, Walked, number_at};
use sealed::vertex_end;

// Judges the n vertex lines from the place on, one after the other, and stores each that is good, up to the first that is not. next is
// the next vertex number.
fn vertices_from(
    words: &mut [u32],
    values: &[u16; 256],
    text: &[u8],
    place: usize,
    n: usize,
    next: usize,
) -> Walked
    requires valued { Valued values.now }
    requires place_value { (place ≡ head_length) × (place ≤ length text.now) }
    requires n_value { (n ≡ vertices_due text.now) × (next ≡ next_vertex_of text.now) }
    requires n_le_next { (n ≤ next) × (n ≤ vertex_limit) }
    requires words_len { length words.old ≡ size limit }
    ensures { VerticesRead text.now words.old words.new result.lines result.at }
{
    let mut at = place;
    let mut low = 0;
    let mut to = layout::VERTICES_AT;
    for i in 0..n {
        let end = vertex_end(values, text, at, low, next - (n - i));
        if end == at {
            return Walked { lines: i, at };
        }
        low = number_at(values, text, at + NUMBER_AT) + 1;
        to = put_vertex(words, to, values, text, at);
        at = end;
    }
    Walked { lines: n, at }
}

// The same, with the head's numbers from the words.
pub fn read_vertices(words: &mut [u32], values: &[u16; 256], text: &[u8], place: usize) -> Walked
    requires valued { Valued values.now }
    requires head_stored { HeadStored text.now words.old }
    requires place_value { place ≡ head_length }
    ensures { VerticesRead text.now words.old words.new result.lines result.at }
{
    let n = layout::vertex_count(words);
    let next = wide_word(layout::next_vertex(words));
    vertices_from(words, values, text, place, n, next)
}
