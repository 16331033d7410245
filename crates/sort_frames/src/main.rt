// Reads frames from standard input and prints the sort, one decimal number a line, or one line such as `refused 9`. For a faulty text the
// line goes to standard error. The longest text that is accepted has 58,977 bytes: what follows the first 65,536 does not change the answer.
#![tactic(auto)]

use std::io;
use std::io::Read;

fn main(rt: HostRuntime) -> io::Result<()> {
    let mut text = Vec::new(rt.alloc());
    rt.stdin().take(65536).read_to_end(&mut text)?;
    sort_sheet::print_sheet(&mut rt.stdout(), &mut rt.stderr(), &text)
}
