// The line of the head.
#![tactic(auto)]

ghost use Rattle.std.specs.Prelude.{◌≡◌, length};
ghost use Rattle.layout.specs.Layout.{limit, size};
ghost use Rattle.frames.specs.Frames.{head_length};
ghost use Rattle.frames.specs.Put.{Put};
ghost use Rattle.frames.specs.Reading.{head_good};
ghost use Rattle.reader.specs.Lines.{Valued, behind, Sealed};
ghost use Rattle.reader.specs.Passes.{head_words};

use put_read::put_word;
use reader::{number_at, short_at};
use sealed::{counts_fit, frame_end, stands_at};

// The bytes of a head, with its last.
const HEAD_BYTES: usize = 16;

// Where the next numbers and the counts stand in its line.
const NEXT_VERTEX_AT: usize = 6;

const NEXT_HYPEREDGE_AT: usize = 14;

const VERTICES_DUE_AT: usize = 22;

const HYPEREDGES_DUE_AT: usize = 26;

// The place behind line 1, where that is good; else 0.
pub fn head_end(values: &[u16; 256], text: &[u8]) -> usize
    requires { Valued values.now }
    ensures { result ≡ behind (head_good text.now) 0 head_length }
{
    let end = frame_end(values, text, 0, HEAD_BYTES);
    if end == 0 {
        return 0;
    }
    if !sealed_head_good(values, text) {
        return 0;
    }
    end
}

// Line 1, which is a frame, is good.
fn sealed_head_good(values: &[u16; 256], text: &[u8]) -> bool
    requires valued { Valued values.now }
    requires sealed { Sealed text.now 0 16 }
    ensures { result ≡ head_good text.now }
{
    if !stands_at(text, 0, b"484731") {
        return false;
    }
    let n = short_at(values, text, VERTICES_DUE_AT);
    let m = short_at(values, text, HYPEREDGES_DUE_AT);
    let vertex = number_at(values, text, NEXT_VERTEX_AT);
    let hyperedge = number_at(values, text, NEXT_HYPEREDGE_AT);
    counts_fit(n, m, vertex, hyperedge)
}

// Stores words 0 to 3.
pub fn put_head(words: &mut [u32], values: &[u16; 256], text: &[u8]) -> usize
    requires valued { Valued values.now }
    requires sealed { Sealed text.now 0 16 }
    requires words_len { length words.old ≡ size limit }
    ensures { Put 0 4 (head_words text.now) words.old words.new result }
{
    let a = put_word(words, 0, number_at(values, text, NEXT_VERTEX_AT));
    let b = put_word(words, a, number_at(values, text, NEXT_HYPEREDGE_AT));
    let c = put_word(words, b, short_at(values, text, VERTICES_DUE_AT));
    put_word(words, c, short_at(values, text, HYPEREDGES_DUE_AT))
}
