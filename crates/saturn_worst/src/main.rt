// Reads a journey from standard input, a count for each cycle, and prints the worst 1,000 cycles of it.
#![tactic(auto)]

use std::io;

fn main(rt: HostRuntime) -> io::Result<()> {
    worst::run(&mut rt.stdin(), &mut rt.stdout())
}
