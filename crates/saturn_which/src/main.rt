// Reads a script from standard input, and prints which one frame of it mattered.
#![tactic(auto)]

use std::io;

fn main(rt: HostRuntime) -> io::Result<()> {
    which::run(&mut rt.stdin(), &mut rt.stdout())
}
