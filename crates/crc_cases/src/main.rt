// Cases of CRCs: one on each line of standard input, its answer on standard output.
#![tactic(auto)]

use crate::answering::CrcCases;
use cases::running;
use std::io;

mod answering;

fn main(rt: HostRuntime) -> io::Result<()> {
    running::run(CrcCases, &mut rt.stdin(), &mut rt.stdout())
}
