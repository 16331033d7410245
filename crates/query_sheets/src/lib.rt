// A question asked of a table, and its answer written as a sheet.
#![tactic(auto)]

ghost use Rattle.std.specs.Prelude.{◌≡◌, take};
ghost use Rattle.layout.specs.Answers.{result_of};
ghost use Rattle.wording.specs.Pages.{page};
ghost use Rattle.saying.specs.Saying.{sheet_on};
ghost use Rattle.asking.specs.Asking.{asked};
ghost use Rattle.query_lines.specs.Queries.{query_sheet};
ghost use Rattle.query_sheets.specs.Room.{no_words};

use commands::Query;
use layout::Answer;

// The first n words; all of them where there are fewer.
pub fn first(words: &[u32], n: usize) -> &[u32]
    ensures { result.now ≡ take n words.now }
{
    if n < words.len() {
        return &words[..n];
    }
    words
}

// The sheet of the words that a question's call wrote, or the call's refusal.
fn put_answer(a: Answer, words: &[u32], q: Query, plain: bool, out: &mut [u8], at: usize) -> Answer
    ensures { result_of result out.new ≡ sheet_on (result_of a words.now) (query_sheet plain q) (page out.old at) }
{
    let n = a?;
    let next = query_lines::put_sheet(q, plain, first(words, n), out, at);
    Ok(next)
}

// The same, by way of the lent words.
fn put_through(
    words: &mut [u32],
    t: &[u32],
    q: Query,
    plain: bool,
    out: &mut [u8],
    at: usize,
) -> Answer
    ensures { result_of result out.new ≡ sheet_on (asked q t.now words.old) (query_sheet plain q) (page out.old at) }
{
    let a = asking::ask(t, q, words);
    put_answer(a, words, q, plain, out, at)
}

// Asks the question and writes its sheet from place `at` on; plain: numbers only. The answer tells the place of the next byte.
pub fn put_query(t: &[u32], q: Query, plain: bool, out: &mut [u8], at: usize) -> Answer
    ensures { result_of result out.new ≡ sheet_on (asked q t.now no_words) (query_sheet plain q) (page out.old at) }
{
    let mut words = [0u32; 131072];
    put_through(&mut words, t, q, plain, out, at)
}
