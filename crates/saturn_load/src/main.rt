// Plays a script from standard input on a module, and prints for each cycle its share of the line.
#![tactic(auto)]

use std::io;

fn main(rt: HostRuntime) -> io::Result<()> {
    load::run(&mut rt.stdin(), &mut rt.stdout())
}
