// Cases of frames, read and written: one on each line of standard input, its answer on standard output.
#![tactic(auto)]

use crate::answering::FrameCases;
use cases::running;
use std::io;

mod answering;

fn main(rt: HostRuntime) -> io::Result<()> {
    running::run(FrameCases, &mut rt.stdin(), &mut rt.stdout())
}
