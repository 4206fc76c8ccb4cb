// Standard input, line by line, to standard output.
ghost use Rattle.std.specs.Prelude.{◌≡◌, ◌++◌, OnOk, OnErr};
ghost use Rattle.console.specs.Handing.{HasRoom, Printed, PrintedFront};
ghost use Rattle.console.specs.Programs.{transcript};
ghost use Rattle.console.specs.Speaking.{spoken};
ghost use Rattle.framing.specs.Answers.{answer_of};
ghost use Rattle.framing.specs.Running.{number_text, end_text};
ghost use Rattle.framing.specs.Running.{answering as Running·answering};

use crate::answering::answer;
use console::answering;
use console::answering::Answerer;
use console::pages::Page;
use frame_words::texts::Text;
use std::io;
use std::io::{Read, Write};

// The answer to the line that comes after `before` others.
#[tactic(auto, unfolding(crate::specs::Running::number_text))]
fn answer_after(before: u64, line: &[u8]) -> Text
    ensures { result ≡ answer_of (number_text before) line.now }
{
    let mut number = Text::new();
    number.add_number(before.wrapping_add(1));
    answer(number.as_slice(), line)
}

// The text at the end of the input: the grammar, if there was no line.
#[tactic(auto, using(crate::proofs::RunningLaws::end_first, crate::proofs::RunningLaws::end_later))]
fn end_text(lines: u64) -> Text
    ensures { result ≡ end_text lines }
{
    if lines == 0 {
        return frame_grammar::grammar_text();
    }
    Text::new()
}

// Puts a text on the page.
fn put(page: &mut Page, text: &Text)
    requires { HasRoom page.old }
    ensures { page.new ≡ page.old ++ text.now }
{
    page.put(text.as_slice());
}

// How many lines were answered. No run has as many as the count can hold.
#[derive(Drop)]
struct Framing {
    lines: u64,
}

impl Answerer for Framing {
    ghost says = { λ p lines. spoken Running·answering p.lines lines };

    fn is_done(&self) -> bool {
        false
    }

    fn answer(&mut self, line: &[u8], page: &mut Page) {
        put(page, &answer_after(self.lines, line));
        self.lines = self.lines.wrapping_add(1);
    }

    fn finish(&mut self, page: &mut Page) {
        put(page, &end_text(self.lines));
    }
}

// Prints the answers to all lines, and the text at the end. An error of the input or the output ends the work; what was written is a
// beginning of what is printed.
pub fn run<R: Read, W: Write>(input: &mut R, output: &mut W) -> io::Result<()>
    ensures ok { OnOk result (Printed (transcript Running·answering) (R.remaining input.old) (R.remaining input.new)
        (W.contents output.old) (W.contents output.new)) }
    ensures err { OnErr result (PrintedFront (transcript Running·answering) (R.remaining input.old) (R.remaining input.new)
        (W.contents output.old) (W.contents output.new)) }
{
    let mut framing = Framing { lines: 0 };
    answering::run(&mut framing, Page::new(), input, output)
}
