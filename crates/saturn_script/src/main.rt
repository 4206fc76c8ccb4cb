// Plays a script from standard input on a module, and prints four fields for each line.
#![tactic(auto)]

use script_text::View;
use std::io;

fn main(rt: HostRuntime) -> io::Result<()> {
    script::run(&mut rt.stdin(), &mut rt.stdout(), View::Script)
}
