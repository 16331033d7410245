// A table read from its text.
#![tactic(auto)]

ghost use Rattle.std.specs.Prelude.{◌≡◌, length};
ghost use Rattle.lists.specs.Inner.{blank};
ghost use Rattle.layout.specs.Layout.{limit, size};
ghost use Rattle.layout.specs.Answers.{result_of};
ghost use Rattle.frames.specs.Frames.{head_length};
ghost use Rattle.frames.specs.Reading.{read_result, vertices_due, vertex_place};
ghost use Rattle.reader.specs.Lines.{Valued};
ghost use Rattle.reader.specs.Passes.{stored_read, answer_of, HeadStored, HeadMade, VerticesMade, TextRead};
ghost use Rattle.reader.specs.Hyperedges.{VerticesStored};

use head_line::{head_end, put_head};
use hyperedge_lines::read_hyperedges;
use layout::{Answer, Refusal};
use reader::value_table;
use vertex_lines::read_vertices;

// The words of a slice in place of another's.
pub fn copy_words(t: &mut [u32], words: &[u32])
    requires { length t.old ≡ length words.now }
    ensures { t.new ≡ words.now }
{
    t.copy_from_slice(words);
}

// Copies the words where no line is faulty.
fn store_read(t: &mut [u32], words: &[u32], line: usize)
    requires { length t.old ≡ length words.now }
    ensures { t.new ≡ stored_read line words.now t.old }
{
    if 0 < line {
        return;
    }
    copy_words(t, words);
}

// The answer for the faulty line, or for none.
fn answer_of(line: usize) -> Answer
    ensures { result ≡ answer_of line }
{
    if line == 0 {
        return Ok(0);
    }
    Err(Refusal::BadText(line))
}

// Reads frame text into a table: 12 with the first line that no written text could have there, which changes no word.
pub fn read_frames(t: &mut [u32], text: &[u8]) -> Answer
    ensures { result_of result t.new ≡ read_result text.now t.old }
{
    if t.len() != layout::SIZE {
        return Err(Refusal::NotWellFormed);
    }
    let mut words = [0u32; layout::SIZE];
    let line = read_text(&mut words, text);
    store_read(t, &words, line);
    answer_of(line)
}

// The hyperedges and the end of the text, behind a good head and n good vertices, whose lines end at the place.
fn read_rest(words: &mut [u32], values: &[u16; 256], text: &[u8], n: usize, place: usize) -> usize
    requires valued { Valued values.now }
    requires vertices_stored { VerticesStored text.now words.old }
    requires vertices_made { VerticesMade text.now words.old × (n ≡ vertices_due text.now) }
    requires place_value { place ≡ vertex_place (vertices_due text.now) }
    ensures { TextRead text.now words.new result }
{
    let m = layout::hyperedge_count(words);
    let walked = read_hyperedges(words, values, text, place);
    if walked.lines < m {
        return 2 + n + walked.lines;
    }
    if walked.at != text.len() {
        return 2 + n + m;
    }
    0
}

// The vertices and what comes behind them, behind a good head, whose line ends at the place.
fn read_records(words: &mut [u32], values: &[u16; 256], text: &[u8], place: usize) -> usize
    requires valued { Valued values.now }
    requires head_stored { HeadStored text.now words.old }
    requires head_made { HeadMade text.now words.old × (place ≡ head_length) }
    ensures { TextRead text.now words.new result }
{
    let n = layout::vertex_count(words);
    let walked = read_vertices(words, values, text, place);
    if walked.lines < n {
        return 2 + walked.lines;
    }
    read_rest(words, values, text, n, walked.at)
}

// The number of the faulty line, or 0; then the words are those of the text's content.
fn read_text(words: &mut [u32], text: &[u8]) -> usize
    requires { words.old ≡ blank (size limit) }
    ensures { TextRead text.now words.new result }
{
    let values = value_table();
    let end = head_end(&values, text);
    if end == 0 {
        return 1;
    }
    put_head(words, &values, text);
    read_records(words, &values, text, end)
}
