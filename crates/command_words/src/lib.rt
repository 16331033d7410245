// The words behind the name of a line, and the numbers among them.
#![tactic(auto)]

ghost use Rattle.std.specs.Prelude.{◌≡◌, ◌+◌, ◌≤◌, length, drop};
ghost use Rattle.commands.specs.Words.{words_behind};
ghost use Rattle.commands.specs.Commands.{most_numbers};
ghost use Rattle.command_words.specs.Scans.{first_word, worth, stored, Scanning};

use commands::MOST;

// The largest number, and what stands for a word that is none.
const LARGEST: usize = 4294967295;

const NO_NUMBER: usize = 4294967296;

// The end of the word that begins at a place: the next blank, or the end of the line.
fn word_end(line: &[u8], from: usize) -> usize
    requires { from ≤ length line.now }
    ensures { result ≡ from + length (first_word (drop from line.now)) }
{
    for i in from..line.len() {
        if line[i] == b' ' {
            return i;
        }
    }
    line.len()
}

fn wide(c: u8) -> usize
    ensures { result ≡ c }
{
    c as usize
}

// The value of a word, or what stands for no number.
fn value(word: &[u8]) -> usize
    ensures { result ≡ worth word.now }
{
    if word.len() == 0 {
        return NO_NUMBER;
    }
    let mut n = 0;
    for i in 0..word.len() {
        let c = wide(word[i]);
        if c < 48 {
            return NO_NUMBER;
        }
        if 57 < c {
            return NO_NUMBER;
        }
        n = n * 10 + (c - 48);
        if LARGEST < n {
            return NO_NUMBER;
        }
    }
    n
}

// Number i of a line is stored, where the line may have so many.
fn store(numbers: &mut [u32; MOST], i: usize, x: u32)
    requires { length numbers.old ≡ most_numbers }
    ensures { numbers.new ≡ stored numbers.old i x }
{
    if i < MOST {
        numbers[i] = x;
    }
}

// How many numbers stand before the first word that is none, and the place of that word, from 1; 0 where every word is a number.
#[derive(Clone, Copy)]
pub struct Scanned {
    pub seen: usize,
    pub fault: usize,
}

// Reads the words behind a name that ends at a place, and stores their numbers.
pub fn scan(line: &[u8], start: usize, numbers: &mut [u32; MOST]) -> Scanned
    requires numbers_len { length numbers.old ≡ most_numbers }
    requires start_in_bounds { start ≤ length line.now }
    ensures { Scanning (words_behind (drop start line.now)) numbers.old result numbers.new }
{
    let mut at = start;
    let mut seen = 0;
    // counts no index: it goes from the end of one word to the end of the next
    while at < line.len() {
        let from = at + 1;
        let end = word_end(line, from);
        let x = value(&line[from..end]);
        if LARGEST < x {
            return Scanned {
                seen,
                fault: seen + 1,
            };
        }
        store(numbers, seen, x as u32);
        seen += 1;
        at = end;
    }
    Scanned { seen, fault: 0 }
}
