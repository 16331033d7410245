// The sheet of every command, in words and in numbers only, and every message of a command that is refused or misused.
#![tactic(auto)]

use std::io;

fn main(rt: HostRuntime) -> io::Result<()> {
    clerk_replay::replay(&rt, b"commands")
}
