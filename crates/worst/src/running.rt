// A journey from standard input, line by line, and its worst 1,000 cycles to standard output.
ghost use Rattle.std.specs.Prelude.{◌≡◌, OnOk, OnErr};
ghost use Rattle.console.specs.Handing.{Printed, PrintedFront};
ghost use Rattle.console.specs.Speaking.{spoken};
ghost use Rattle.worst.specs.Reading.{reading, journey_text};

use crate::reading::Journey;
use crate::results::put_result;
use console::answering;
use console::answering::Answerer;
use console::pages::Page;
use std::io;
use std::io::{Read, Write};

impl Answerer for Journey {
    ghost says = { λ j lines. spoken reading j lines };

    fn is_done(&self) -> bool {
        !self.is_counting()
    }

    fn answer(&mut self, line: &[u8], _page: &mut Page) {
        self.read_line(line);
    }

    fn finish(&mut self, page: &mut Page) {
        put_result(page, self);
    }
}

// Prints the worst 1,000 cycles of the journey that the input has, and nothing else. An error of the input or the output ends the
// work; of what is printed a beginning may then be written.
pub fn run<R: Read, W: Write>(input: &mut R, output: &mut W) -> io::Result<()>
    ensures ok { OnOk result (Printed journey_text (R.remaining input.old) (R.remaining input.new)
        (W.contents output.old) (W.contents output.new)) }
    ensures err { OnErr result (PrintedFront journey_text (R.remaining input.old) (R.remaining input.new)
        (W.contents output.old) (W.contents output.new)) }
{
    let mut journey = Journey::new();
    answering::run(&mut journey, Page::new(), input, output)
}
