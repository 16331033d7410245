// A line of commands, parsed.
#![tactic(auto)]

ghost use Rattle.std.specs.Prelude.{◌≡◌, min, ◌≤◌, ◌<◌, length, take};
ghost use Rattle.lists.specs.Lists.{word_at};
ghost use Rattle.commands.specs.Commands.{most_numbers, command_count, help_on, Parsing};
ghost use Rattle.commands.specs.Inner.{Opens};
ghost use Rattle.parse_line.specs.Lines.{judged_by, ParsingAs};

use command_words::Scanned;
use commands::{Command, MOST, Parsed};

// The number of `help`.
const HELP: usize = 31;

// Number i of the first ones, or 0 past them.
fn number_at(numbers: &[u32; MOST], count: usize, i: usize) -> u32
    requires { (length numbers.now ≡ most_numbers) × (count ≤ most_numbers) }
    ensures { result ≡ word_at (take count numbers.now) i }
{
    if i < count {
        return numbers[i];
    }
    0
}

// What command k asks for with the numbers that were read, or the first fault.
fn judged(k: usize, s: Scanned, numbers: &[u32; MOST]) -> Command
    requires { (k < command_count) × (length numbers.now ≡ most_numbers) }
    ensures { result ≡ judged_by k s numbers.now }
{
    let n = s.seen;
    let fault = s.fault;
    if fault != 0 {
        return Command::NotNumber(fault);
    }
    if MOST < n {
        return Command::TooMany;
    }
    if !command_forms::takes(k, n) {
        return Command::WrongCount(k);
    }
    let a = number_at(numbers, n, 0);
    let b = number_at(numbers, n, 1);
    let c = number_at(numbers, n, 2);
    command_forms::command_of(k, a, b, c)
}

// Help alone, or on the name that follows it.
fn help_on(rest: &[u8]) -> Command
    ensures { result ≡ help_on rest.now }
{
    if rest.len() == 0 {
        return Command::Help;
    }
    let f = commands::find_exact(&rest[1..]);
    match f {
        Some(k) => Command::HelpOn(k),
        None => Command::Unknown,
    }
}

fn at_most_all(n: usize) -> usize
    ensures { result ≡ min most_numbers n }
{
    if n < MOST {
        return n;
    }
    MOST
}

// Reads the line as command k.
fn parse_as(k: usize, line: &[u8], numbers: &mut [u32; MOST]) -> Parsed
    requires opens { Opens line.now k }
    requires numbers_len { length numbers.old ≡ most_numbers }
    ensures { ParsingAs (Some k) line.now numbers.old result numbers.new }
{
    let at = commands::name_length(k);
    let s = command_words::scan(line, at, numbers);
    let count = at_most_all(s.seen);
    if k == HELP {
        let command = help_on(&line[at..]);
        return Parsed { command, count };
    }
    let command = judged(k, s, numbers);
    Parsed { command, count }
}

// Reads a line, without its line feed: what it asks for, and its numbers from the front of those lent.
pub fn parse(line: &[u8], numbers: &mut [u32; MOST]) -> Parsed
    requires { length numbers.old ≡ most_numbers }
    ensures { Parsing line.now numbers.old result numbers.new }
{
    let f = commands::find_name(line);
    match f {
        Some(k) => parse_as(k, line, numbers),
        None => Parsed {
            command: Command::Unknown,
            count: 0,
        },
    }
}
