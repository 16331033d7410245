// How many answers of each function were compared and how many differ. A tally's first half counts the compared ones, its second half
// those that differ, each by the function's place.
ghost use Rattle.std.specs.Prelude.{◌≡◌, slice_index};
ghost use Rattle.replay.specs.Judging.{one_more, counted_in, total_count, compared_in};

use std::io;

fn more(tally: &mut [u32], i: usize)
    ensures { tally.new ≡ one_more i tally.old }
{
    if i < tally.len() {
        tally[i] = tally[i].wrapping_add(1);
    }
}

pub fn count(tally: &mut [u32], f: usize, same: bool)
    ensures { tally.new ≡ counted_in f same tally.old }
{
    let half = tally.len() / 2;
    if f < half {
        more(tally, f);
        if !same {
            more(tally, half + f);
        }
    }
}

// The sum of the first n counts.
fn total(counts: &[u32], n: usize) -> u32
    ensures { result ≡ total_count counts.now n }
{
    let mut sum: u32 = 0;
    for k in 0..n {
        sum = sum.wrapping_add(at(counts, k));
    }
    sum
}

fn at(tally: &[u32], i: usize) -> u32
    ensures { result ≡ slice_index tally.now i }
{
    if i < tally.len() {
        return tally[i];
    }
    0
}

pub fn compared(tally: &[u32]) -> u32
    ensures { result ≡ compared_in tally.now }
{
    total(tally, tally.len() / 2)
}

fn say(rt: &impl Print, name: &[u8], compared: u32, differing: u32) -> io::Result<()> {
    rt.write_all(name)?;
    println!(rt; ": {compared} compared, {differing} differ")
}

// A line for the function of place f.
pub fn line(rt: &impl Print, name: &[u8], f: usize, tally: &[u32]) -> io::Result<()> {
    let half = tally.len() / 2;
    if f < half {
        say(rt, name, at(tally, f), at(tally, half + f))?;
    }
    Ok(())
}

// The line of all functions.
pub fn all(rt: &impl Print, tally: &[u32]) -> io::Result<()> {
    let half = tally.len() / 2;
    say(rt, b"all", compared(tally), total(&tally[half..], half))
}
