// A script from standard input, and which one frame of it mattered to standard output.
ghost use Rattle.std.specs.Prelude.{◌≡◌, ◌≤◌, ℕ, List, [], take, OnOk, OnErr};
ghost use Rattle.console.specs.Handing.{Printed, PrintedFront};
ghost use Rattle.which.specs.Printing.{printed};
ghost use Rattle.which.specs.Reading.{ScriptRead, ScriptLost, Tells};

use crate::printing::put_which;
use console::blocks::read_full;
use console::pages::{Page, hand_on};
use removals::which_frame;
use std::io;
use std::io::{Read, Write};
use std::marker::Model;

// A script, with room for the longest and one byte more, which tells that a script is longer. It is no `Text`, since the input is
// read into its bytes, which a `Text` keeps to itself.
#[derive(Drop)]
struct Script {
    bytes: [u8; 60001],
    len: usize,
}

impl Model for Script {
    ghost Value = { List ℕ };

    ghost view = { λ s. take s.len s.bytes };

    ghost invariant = { λ s. s.len ≤ 60001 };
}

impl Script {
    fn new() -> Self
        ensures { result ≡ [] }
    {
        Script {
            bytes: [0; 60001],
            len: 0,
        }
    }

    // Reads a script to its end, or until it is too long.
    fn read<R: Read>(&mut self, input: &mut R) -> io::Result<()>
        ensures ok { OnOk result (ScriptRead (R.remaining input.old) (R.remaining input.new) self.new) }
        ensures err { OnErr result (ScriptLost (R.remaining input.old) (R.remaining input.new)) }
        ensures none { OnErr result (self.new ≡ []) }
    {
        self.len = 0;
        self.len = read_full(input, &mut self.bytes)?;
        Ok(())
    }

    // A page with what is printed for the input of which this was read.
    fn tell(&self) -> Page
        ensures { Tells self.now result }
    {
        let mut page = Page::new();
        put_which(&mut page, which_frame(&self.bytes[..self.len]));
        page
    }
}

// An error of the input or the output ends the work; of what is printed a beginning may then be written, and nothing else.
#[tactic(auto, using(crate::proofs::WritingLaws::read_lost, crate::proofs::WritingLaws::text_begun))]
pub fn run<R: Read, W: Write>(input: &mut R, output: &mut W) -> io::Result<()>
    ensures ok { OnOk result (Printed printed (R.remaining input.old) (R.remaining input.new)
        (W.contents output.old) (W.contents output.new)) }
    ensures err { OnErr result (PrintedFront printed (R.remaining input.old) (R.remaining input.new)
        (W.contents output.old) (W.contents output.new)) }
{
    let mut script = Script::new();
    script.read(input)?;
    hand_on(&mut script.tell(), output)
}
