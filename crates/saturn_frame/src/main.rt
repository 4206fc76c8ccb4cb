// The program saturn-frame: a list on standard input, the answer to each line on standard output.
#![tactic(auto)]

use std::io;

fn main(rt: HostRuntime) -> io::Result<()> {
    framing::run(&mut rt.stdin(), &mut rt.stdout())
}
