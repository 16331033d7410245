// A day at the bench, as README.md shows it.
#![tactic(auto)]

use std::io;

fn main(rt: HostRuntime) -> io::Result<()> {
    clerk_replay::replay(&rt, b"commands")
}
