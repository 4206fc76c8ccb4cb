// A script from standard input, line by line, and its text to standard output.
ghost use Rattle.std.specs.Prelude.{◌≡◌, ◌++◌, OnOk, OnErr};
ghost use Rattle.console.specs.Handing.{HasRoom, Printed, PrintedFront};
ghost use Rattle.console.specs.Programs.{transcript};
ghost use Rattle.console.specs.Speaking.{spoken};
ghost use Rattle.script_text.specs.Printing.{header_of};
ghost use Rattle.script.specs.Playing.{scripted};

use crate::playing::Player;
use console::answering;
use console::answering::Answerer;
use console::pages::Page;
use script_text::{View, put_header};
use std::io;
use std::io::{Read, Write};

// A script as it is played, and what is shown of it.
#[derive(Drop)]
struct Script {
    view: View,
    player: Player,
}

impl Answerer for Script {
    ghost says = { λ s lines. spoken (scripted s.view) s.player lines };

    fn is_done(&self) -> bool {
        false
    }

    fn answer(&mut self, line: &[u8], page: &mut Page) {
        self.player.play_line(self.view, line, page);
    }

    fn finish(&mut self, _page: &mut Page) {}
}

// A page with the header.
#[tactic(auto, using(crate::proofs::HeaderLaws::header_put))]
fn header(view: View) -> Page
    ensures { result ≡ header_of view }
{
    let mut page = Page::new();
    put_header(&mut page, view);
    page
}

// Prints the header, and the text of every line. An error of the input or the output ends the work, with a beginning of the text
// written.
pub fn run<R: Read, W: Write>(input: &mut R, output: &mut W, view: View) -> io::Result<()>
    ensures ok { OnOk result (Printed (transcript (scripted view)) (R.remaining input.old) (R.remaining input.new)
        (W.contents output.old) (W.contents output.new)) }
    ensures err { OnErr result (PrintedFront (transcript (scripted view)) (R.remaining input.old) (R.remaining input.new)
        (W.contents output.old) (W.contents output.new)) }
{
    let mut script = Script {
        view,
        player: Player::new(),
    };
    answering::run(&mut script, header(view), input, output)
}
