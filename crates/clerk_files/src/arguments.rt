// The words that the program was started with: the file, the command and its arguments, and `--plain` anywhere among them.
ghost use Rattle.std.specs.Prelude.{◌≡◌, length};

use std::env::{Env, FillError};
use wording::put_text;

// A file's name has fewer bytes than this, and so has an argument; a batch has fewer than that.
pub const NAME: usize = 4096;

pub const BATCH: usize = 1048576;

// Room for a batch.
pub fn batch() -> [u8; BATCH]
    ensures { 1048576 ≡ length result }
{
    [0; BATCH]
}

// What the words say: how many bytes the file's name has, and the command line, where there are any.
#[derive(Clone, Copy)]
pub struct Words {
    pub name: Option<usize>,
    pub line: Option<usize>,
    pub plain: bool,
}

// An argument is too long, or has a line feed in it.
#[derive(Clone, Copy, PartialEq, Eq, Debug)]
pub struct BadWord;

// Whether the first word is a command that wants no file.
pub fn stands_alone(name: &[u8]) -> bool {
    matches!(
        name,
        b"help" | b"version" | b"--help" | b"-h" | b"--version"
    )
}

// Whether the first line of a batch is `init`: a file is to be made.
pub fn opens_with_init(batch: &[u8]) -> bool {
    batch == b"init".as_slice() || batch.starts_with(b"init\n")
}

// The command that such a word means.
pub fn put_command(line: &mut [u8], name: &[u8]) -> usize {
    match name {
        b"version" | b"--version" => put_text(line, 0, b"version"),
        _ => put_text(line, 0, b"help"),
    }
}

// What follows it, behind a blank.
pub fn put_rest(line: &mut [u8], at: usize, rest: &[u8]) -> usize {
    let a = put_text(line, at, b" ");
    put_text(line, a, rest)
}

// The file's name is the first word that is not `--plain`.
fn take_name(words: Words, word: &[u8], name: &mut [u8]) -> Words {
    let n = put_text(name, 0, word);
    Words {
        name: Some(n),
        ..words
    }
}

// A word of the command line: the words stand there with a blank between two.
fn take_word(words: Words, word: &[u8], line: &mut [u8]) -> Result<Words, BadWord> {
    let end = match words.line {
        Some(at) => put_rest(line, at, word),
        None => put_text(line, 0, word),
    };
    if word.contains(&b'\n') || end == line.len() {
        return Err(BadWord);
    }
    Ok(Words {
        line: Some(end),
        ..words
    })
}

fn take_any(words: Words, word: &[u8], name: &mut [u8], line: &mut [u8]) -> Result<Words, BadWord> {
    if word == b"--plain".as_slice() {
        return Ok(Words {
            plain: true,
            ..words
        });
    }
    match words.name {
        Some(_) => take_word(words, word, line),
        None => Ok(take_name(words, word, name)),
    }
}

// Argument i, if there is one; one that does not fit is bad.
fn take_argument(
    env: &impl Env,
    i: usize,
    words: Words,
    name: &mut [u8],
    line: &mut [u8],
) -> Result<Option<Words>, BadWord> {
    let mut word = [0u8; NAME];
    match env.arg(i, &mut word) {
        Ok(n) => Ok(Some(take_any(words, &word[..n], name, line)?)),
        Err(FillError::NotPresent) => Ok(None),
        Err(FillError::TooLong) => Err(BadWord),
    }
}

// All of them, from the first behind the program's own name on.
pub fn gather(env: &impl Env, name: &mut [u8], line: &mut [u8]) -> Result<Words, BadWord> {
    let mut words = Words {
        name: None,
        line: None,
        plain: false,
    };
    for i in 1..usize::MAX {
        match take_argument(env, i, words, name, line)? {
            Some(more) => words = more,
            None => break,
        }
    }
    Ok(words)
}
