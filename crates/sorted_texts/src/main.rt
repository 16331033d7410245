// The sheets of stored texts: each text's name, and what `sort_frames` prints for it, the faulty line with it.
#![tactic(auto)]

use std::fs::File;
use std::io;
use std::io::Read;
use std::rt::Files;

fn show<R: Files + Print + Eprint + Alloc>(rt: &R, name: &str) -> io::Result<()> {
    println!(rt; "{name}:")?;
    let file = match File::open(rt, name) {
        Ok(file) => file,
        Err(error) => return eprintln!(rt; "{name}: {error}"),
    };
    let mut text = Vec::new(rt.alloc());
    file.take(65536).read_to_end(&mut text)?;
    sort_sheet::print_sheet(&mut io::writer(rt), &mut io::writer(rt), &text)
}

fn main(rt: HostRuntime) -> io::Result<()> {
    show(&rt, "example")?;
    show(&rt, "closed_walk")?;
    show(&rt, "twice_in_a_row")?;
    show(&rt, "damaged")?;
    show(&rt, "empty")?;
    show(&rt, "full")?;
    show(&rt, "longer_than_any")
}
