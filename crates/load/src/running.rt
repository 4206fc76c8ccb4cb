// A script from standard input, line by line, and its line load to standard output.
ghost use Rattle.std.specs.Prelude.{◌≡◌, OnOk, OnErr};
ghost use Rattle.console.specs.Lines.{lines_of};
ghost use Rattle.console.specs.Handing.{Printed, PrintedFront};
ghost use Rattle.console.specs.Speaking.{spoken};
ghost use Rattle.load.specs.Cycles.{load_text};
ghost use Rattle.load.specs.Loading.{loading};

use crate::cycles::{Loading, MOST_LINES, put_open};
use console::answering;
use console::answering::Answerer;
use console::pages::Page;
use std::io;
use std::io::{Read, Write};

impl Answerer for Loading {
    ghost says = { λ p lines. spoken loading p lines };

    fn is_done(&self) -> bool {
        MOST_LINES <= self.lines
    }

    fn answer(&mut self, line: &[u8], page: &mut Page) {
        self.load_line(line, page);
    }

    fn finish(&mut self, page: &mut Page) {
        put_open(page, self.cycle);
    }
}

// Prints the line of every cycle, up to the millionth line of the script. An error of the input or the output ends the work; what was
// written is a beginning of what is printed.
pub fn run<R: Read, W: Write>(input: &mut R, output: &mut W) -> io::Result<()>
    ensures ok { OnOk result (Printed (λ all. load_text (lines_of all)) (R.remaining input.old) (R.remaining input.new)
        (W.contents output.old) (W.contents output.new)) }
    ensures err { OnErr result (PrintedFront (λ all. load_text (lines_of all)) (R.remaining input.old) (R.remaining input.new)
        (W.contents output.old) (W.contents output.new)) }
{
    let mut loading = Loading::new();
    answering::run(&mut loading, Page::new(), input, output)
}
