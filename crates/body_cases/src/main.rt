// Cases of bodies, read and laid down: one on each line of standard input, its answer on standard output.
#![tactic(auto)]

use crate::answering::BodyCases;
use cases::running;
use std::io;

mod answering;

fn main(rt: HostRuntime) -> io::Result<()> {
    running::run(BodyCases, &mut rt.stdin(), &mut rt.stdout())
}
