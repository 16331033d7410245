// The sheet that a clerk is given: the sort of a frame text, or why there is none.
#![tactic(auto)]

ghost use Rattle.std.specs.Prelude.{◌≡◌, eqb, length};
ghost use Rattle.layout.specs.Layout.{limit, size};
ghost use Rattle.layout.specs.Answers.{number, result_of};
ghost use Rattle.sort_sheet.specs.Sheet.{sheet_result};

use layout::{Answer, Reply};
use std::io;
use std::io::Write;

fn is_done(a: Answer) -> bool
    ensures { result ≡ eqb (number a) 0 }
{
    Reply::from(a).number == 0
}

// The same, by way of the lent table.
fn sort_through(t: &mut [u32], text: &[u8], order: &mut [u32]) -> Answer
    requires { length t.old ≡ size limit }
    ensures { result_of result order.new ≡ sheet_result text.now order.old }
{
    let a = read_frames::read_frames(t, text);
    if !is_done(a) {
        return a;
    }
    topological_sort::topological_sort(t, order)
}

// Reads the text and sorts what stands in it.
fn sort_text(text: &[u8], order: &mut [u32]) -> Answer
    ensures { result_of result order.new ≡ sheet_result text.now order.old }
{
    let mut t = [0u32; layout::SIZE];
    sort_through(&mut t, text, order)
}

// One number and a line feed.
fn print_line<W: Write>(out: &mut W, x: u64) -> io::Result<()> {
    writeln!(out, "{x}")
}

fn print_number<W: Write>(out: &mut W, x: u32) -> io::Result<()> {
    print_line(out, x as u64)
}

// The first n numbers, one a line.
fn print_lines<W: Write>(
    out: &mut W,
    order: &[u32; layout::VERTEX_LIMIT],
    n: usize,
) -> io::Result<()> {
    for i in 0..n {
        if i < layout::VERTEX_LIMIT {
            print_number(out, order[i])?;
        }
    }
    Ok(())
}

// One line such as `refused 9`; for a faulty text also the line, to `err`.
fn print_refusal<W: Write, E: Write>(out: &mut W, err: &mut E, a: Answer) -> io::Result<()> {
    let r = Reply::from(a);
    write!(out, "refused ")?;
    print_line(out, r.number as u64)?;
    if r.number == 12 {
        writeln!(err, "line {} is faulty", r.detail)?;
    }
    Ok(())
}

// Prints the sort of the text, one decimal number a line, or one line such as `refused 9`.
pub fn print_sheet<W: Write, E: Write>(out: &mut W, err: &mut E, text: &[u8]) -> io::Result<()> {
    let mut order = [0u32; layout::VERTEX_LIMIT];
    let a = sort_text(text, &mut order);
    match a {
        Ok(n) => print_lines(out, &order, n),
        refusal => print_refusal(out, err, refusal),
    }
}
