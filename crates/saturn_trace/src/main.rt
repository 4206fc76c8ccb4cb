// Plays a script as saturn_script does, and also prints the reply and the registers.
#![tactic(auto)]

use script_text::View;
use std::io;

fn main(rt: HostRuntime) -> io::Result<()> {
    script::run(&mut rt.stdin(), &mut rt.stdout(), View::Trace)
}
