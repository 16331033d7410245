// Files: read whole, written beside the old one, synced and renamed over it.
#![tactic(auto)]

ghost use Rattle.std.specs.Prelude.{◌≡◌, length};

pub mod arguments;

use std::fs::File;
use std::io::{ErrorKind, Read, Write};
use std::{fs, io};
use wording::put_text;

// The longest frame text has 58,977 bytes: what follows the first 65,536 does not change the answer.
pub const TEXT: usize = 65536;

// A name with an ending, or a message with a name.
pub const PATH: usize = 4160;

// Room for what is printed: the longest sheet is the closure of 256 tubes.
pub const PAGE: usize = 2097152;

pub fn page() -> [u8; PAGE]
    ensures { 2097152 ≡ length result }
{
    [0; PAGE]
}

// The first n bytes, or all.
pub fn part(bytes: &[u8], n: usize) -> &[u8] {
    if n <= bytes.len() {
        return &bytes[0..n];
    }
    bytes
}

// A line on standard error; where that can't be written there is nobody to tell.
pub fn say(rt: &HostRuntime, text: &[u8]) {
    let _ = rt.stderr().write_all(text);
}

// What the system says of an error, without its number.
fn put_error(what: &mut [u8], at: usize, error: &io::Error) -> usize {
    let mut text = [0u8; 256];
    let mut rest = &mut text[..];
    let _ = write!(rest, "{error}");
    put_text(what, at, without_number(&text))
}

// The text before its first zero, or before " (os error ".
fn without_number(text: &[u8]) -> &[u8] {
    for n in 0..text.len() {
        if text[n] == 0 || text[n..].starts_with(b" (os error ") {
            return part(text, n);
        }
    }
    text
}

// What failed, and why.
pub fn fail(rt: &HostRuntime, name: &[u8], error: &io::Error) {
    let mut what = [0u8; PATH];
    let a = put_text(&mut what, 0, b"vaultsorrel: ");
    let b = put_text(&mut what, a, name);
    let mut why = [0u8; 256];
    let c = put_text(&mut why, 0, b": ");
    let d = put_error(&mut why, c, error);
    let e = put_text(&mut why, d, b"\n");
    say(rt, part(&what, b));
    say(rt, part(&why, e));
}

// A file, standard input or standard output could not be read or written, or is not as it has to be; a message says so.
#[derive(Clone, Copy, PartialEq, Eq, Debug)]
pub struct Failed;

// A line about a file.
pub fn say_of(rt: &HostRuntime, name: &[u8], text: &[u8]) {
    say(rt, b"vaultsorrel: ");
    say(rt, name);
    say(rt, text);
}

// A name as std takes it.
fn path(name: &[u8]) -> io::Result<&str> {
    match str::from_utf8(name) {
        Ok(path) => Ok(path),
        Err(_) => Err(io::Error::new(ErrorKind::InvalidInput, "the name is not UTF-8")),
    }
}

fn open_read(rt: &HostRuntime, name: &[u8]) -> io::Result<File> {
    File::open(rt, path(name)?)
}

pub fn rename(rt: &HostRuntime, from: &[u8], to: &[u8]) -> io::Result<()> {
    fs::rename(rt, path(from)?, path(to)?)
}

pub fn unlink(rt: &HostRuntime, name: &[u8]) -> io::Result<()> {
    fs::remove_file(rt, path(name)?)
}

// One read more, into what is left from a place on.
fn read_more<R: Read>(from: &mut R, bytes: &mut [u8], at: usize) -> io::Result<usize> {
    if at <= bytes.len() {
        return from.read(&mut bytes[at..]);
    }
    Ok(0)
}

// How far a read of k bytes came.
fn moved(at: usize, k: usize, most: usize) -> usize {
    if at <= most {
        if k <= most - at {
            return at + k;
        }
    }
    most
}

// Reads to the end, or until the bytes from a place on are full, and tells how many there are then.
pub fn read_to_end<R: Read>(reader: &mut R, bytes: &mut [u8], from: usize) -> io::Result<usize> {
    let most = bytes.len();
    let mut at = from;
    for _ in 0..u64::MAX {
        if at >= most {
            break;
        }
        let k = read_more(reader, bytes, at)?;
        if k == 0 {
            break;
        }
        at = moved(at, k, most);
    }
    Ok(at)
}

// The bytes of the file, as many as fit.
pub fn read_file(rt: &HostRuntime, name: &[u8], bytes: &mut [u8]) -> io::Result<usize> {
    let mut file = open_read(rt, name)?;
    read_to_end(&mut file, bytes, 0)
}

// The same of a file that may be missing: it then has no bytes.
pub fn read_optional(rt: &HostRuntime, name: &[u8], bytes: &mut [u8]) -> io::Result<usize> {
    match read_file(rt, name, bytes) {
        Ok(n) => Ok(n),
        Err(error) => {
            if error.kind() == ErrorKind::NotFound {
                return Ok(0);
            }
            Err(error)
        }
    }
}

pub fn is_missing(rt: &HostRuntime, name: &[u8]) -> bool {
    match open_read(rt, name) {
        Ok(_) => false,
        Err(error) => error.kind() == ErrorKind::NotFound,
    }
}

pub fn is_dash(name: &[u8]) -> bool {
    name == b"-".as_slice()
}

// Whether the file still has these bytes; one that may be missing has none.
pub fn is_still(rt: &HostRuntime, name: &[u8], text: &[u8]) -> bool {
    let mut bytes = [0u8; TEXT];
    match read_optional(rt, name, &mut bytes) {
        Err(_) => false,
        Ok(n) => part(&bytes, n) == text,
    }
}

pub fn are_still(rt: &HostRuntime, name: &[u8], text: &[u8], desk: &[u8], states: &[u8]) -> bool {
    is_still(rt, name, text) && is_still(rt, desk, states)
}

fn create_new(rt: &HostRuntime, new: &[u8]) -> io::Result<File> {
    File::options()
        .write(true)
        .create_new(true)
        .open(rt, path(new)?)
}

// Makes a file that is not there yet; a leftover is named, and kept.
pub fn open_new(rt: &HostRuntime, new: &[u8]) -> Result<File, Failed> {
    match create_new(rt, new) {
        Ok(file) => Ok(file),
        Err(error) => {
            if error.kind() == ErrorKind::AlreadyExists {
                say_of(
                    rt,
                    new,
                    b" is there: another run is at work, or was ended; nothing was changed\n",
                );
                return Err(Failed);
            }
            fail(rt, new, &error);
            Err(Failed)
        }
    }
}

// Writes the text to a file that is open, and sees that it is on the disk.
pub fn write_synced(file: &mut File, text: &[u8]) -> io::Result<()> {
    file.write_all(text)?;
    file.sync_all()
}

// The name with an ending.
pub fn put_ending(path: &mut [u8], name: &[u8], ending: &[u8]) -> usize {
    let a = put_text(path, 0, name);
    put_text(path, a, ending)
}

// How many bytes of the name stand before its last part.
fn folder_length(name: &[u8]) -> usize {
    let mut n = 0;
    for i in 0..name.len() {
        if name[i] == b'/' {
            n = i + 1;
        }
    }
    n
}

// Sees that the folder's entries are on the disk, where the system can.
pub fn sync_folder(rt: &HostRuntime, name: &[u8]) {
    let n = folder_length(name);
    if n == 0 {
        sync(rt, b".");
        return;
    }
    sync(rt, part(name, n));
}

fn sync(rt: &HostRuntime, folder: &[u8]) {
    if let Ok(opened) = open_read(rt, folder) {
        let _ = opened.sync_all();
    }
}
