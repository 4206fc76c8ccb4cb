// A case program from standard input, line by line, to standard output.
ghost use Rattle.std.specs.Prelude.{List, ℕ, OnOk, OnErr};
ghost use Rattle.console.specs.Handing.{Printed, PrintedFront};
ghost use Rattle.console.specs.Programs.{transcript};
ghost use Rattle.console.specs.Speaking.{spoken};
ghost use Rattle.cases.specs.Cases.{answer_to, answering, case_of, Says};

use crate::answers::{case_of, put_answer_text};
use console::answering;
use console::answering::Answerer;
use console::pages::Page;
use frame_words::texts::Text;
use std::io;
use std::io::{Read, Write};

// What a case program answers: bytes, to an operation and the bytes after it.
pub trait Cases: Drop {
    ghost answers: { ℕ → List ℕ → List ℕ };

    fn answer(&self, op: u8, s: &[u8]) -> Text
        ensures { Says result (answers op s.now) };
}

// The answer to a line.
fn answer_line<C: Cases>(cases: &C, line: &[u8]) -> Text
    ensures { Says result (answer_to C.answers (case_of line.now)) }
{
    let mut bytes = [0; 600];
    match case_of(line, &mut bytes).split_first() {
        Some((&op, s)) => cases.answer(op, s),
        None => Text::new(),
    }
}

// The program that answers all lines so.
#[derive(Drop)]
pub struct CaseProgram<C: Cases> {
    pub cases: C,
}

impl<C: Cases> Answerer for CaseProgram<C> {
    ghost says = { λ p lines. spoken (answering C.answers) tt lines };

    fn is_done(&self) -> bool {
        false
    }

    fn answer(&mut self, line: &[u8], page: &mut Page) {
        put_answer_text(page, answer_line(&self.cases, line).as_slice());
    }

    fn finish(&mut self, _page: &mut Page) {}
}

// Prints the answers to all lines of the input. An error of the input or the output ends the work; of what is printed a beginning
// may then be written.
pub fn run<C: Cases, R: Read, W: Write>(cases: C, input: &mut R, output: &mut W) -> io::Result<()>
    ensures ok { OnOk result (Printed (transcript (answering C.answers)) (R.remaining input.old) (R.remaining input.new)
        (W.contents output.old) (W.contents output.new)) }
    ensures err { OnErr result (PrintedFront (transcript (answering C.answers)) (R.remaining input.old) (R.remaining input.new)
        (W.contents output.old) (W.contents output.new)) }
{
    let mut program = CaseProgram { cases };
    answering::run(&mut program, Page::new(), input, output)
}
