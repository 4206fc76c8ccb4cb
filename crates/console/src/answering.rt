// A program that answers lines, and the loop that it runs in.
ghost use Rattle.std.specs.Prelude.{◌≡◌, [], List, ◌∷◌, ◌++◌, ℕ, Some, IfSome, IfOk, OnOk, OnErr, IsTrue, IsFalse};
ghost use Rattle.std.specs.List.{position};
ghost use Rattle.std.specs.Io.KnownBytes.{Keeps, Appends, Consumes, IsAtEnd};
ghost use Rattle.text.specs.Lines.{is_end};
ghost use Rattle.console.specs.Lines.{Free, lines_of};
ghost use Rattle.console.specs.Handing.{HasRoom, HandsOn, AppendsFront, Printed, PrintedFront};
ghost use Rattle.console.specs.Showing.{shown};

use crate::blocks::Block;
use crate::lines::{Line, SHOWN};
use crate::pages::{Page, hand_on, make_room};
use std::io;
use std::io::{Read, Write};
use text::lines::line_end;

// A program that answers lines.
pub trait Answerer {
    // All that it says from here on, if these are the lines to come.
    ghost says: { Self → List (List ℕ) → List ℕ };

    // Whether it says the same whatever lines come.
    fn is_done(&self) -> bool
        ensures { IsTrue result → (lines : List (List ℕ)) → says self.now lines ≡ says self.now [] };

    // Answers a line. `line` has its first 1,201 characters.
    fn answer(&mut self, line: &[u8], page: &mut Page)
        requires { HasRoom page.old }
        ensures { (chars : List ℕ) (lines : List (List ℕ)) → line.now ≡ shown chars
            → page.new ++ says self.new lines ≡ page.old ++ says self.old (chars ∷ lines) };

    // Says what comes after the last line.
    fn finish(&mut self, page: &mut Page)
        requires { HasRoom page.old }
        ensures { page.new ≡ page.old ++ says self.old [] };
}

// Answers a last line that lacks its LF, if there is one.
fn answer_last<P: Answerer>(program: &mut P, page: &mut Page, line: &Line)
    requires { HasRoom page.old }
    ensures { (chars : List ℕ) → Free chars → line.now ≡ shown chars
        → page.new ++ P.says program.new [] ≡ page.old ++ P.says program.old (lines_of chars) }
{
    if !line.as_slice().is_empty() {
        program.answer(line.as_slice(), page);
    }
}

// Says what comes after the last line, and writes all that is left.
fn close<P: Answerer, W: Write>(program: &mut P, page: &mut Page, output: &mut W) -> io::Result<()>
    ensures ok { OnOk result (Appends (W.contents output.old) (W.contents output.new) (page.old ++ P.says program.old [])) }
    ensures err { OnErr result (AppendsFront (W.contents output.old) (W.contents output.new) (page.old ++ P.says program.old [])) }
{
    make_room(page, output)?;
    program.finish(page);
    hand_on(page, output)
}

// Another block; returns whether there was one. Before it waits for more input, the text so far is handed on.
fn next_block<R: Read, W: Write>(
    block: &mut Block,
    page: &mut Page,
    input: &mut R,
    output: &mut W,
) -> io::Result<bool>
    ensures ok { IfOk result (λ more. Consumes (R.remaining input.old) (R.remaining input.new) block.new
        × (IsFalse more → IsAtEnd (R.remaining input.new) × (block.new ≡ []))) }
    ensures handed { OnOk result (Appends (W.contents output.old) (W.contents output.new) page.old) }
    ensures none { OnOk result (page.new ≡ []) }
    ensures err { OnErr result (AppendsFront (W.contents output.old) (W.contents output.new) page.old) }
    ensures kept { OnErr result (Keeps (R.remaining input.old) (R.remaining input.new)) }
{
    hand_on(page, output)?;
    block.fill(input)
}

// Where the next line ends, if all of it lies in the block: nothing of it was kept from the block before.
fn whole_line(line: &Line, block: &Block) -> Option<usize>
    ensures { IfSome result (λ n. (line.now ≡ []) × (Some n ≡ position is_end block.now)) }
{
    if line.as_slice().is_empty() {
        return line_end(block.as_slice());
    }
    None
}

// Answers all lines of the input, or those up to the end of the program's work; what stands on the page comes first. A proved loop
// has to end, and nothing says that the input does: so it has a number of turns that no run uses up.
pub fn run<P: Answerer, R: Read, W: Write>(
    program: &mut P,
    mut page: Page,
    input: &mut R,
    output: &mut W,
) -> io::Result<()>
    ensures ok { OnOk result (Printed (λ all. page ++ P.says program.old (lines_of all))
        (R.remaining input.old) (R.remaining input.new) (W.contents output.old) (W.contents output.new)) }
    ensures err { OnErr result (PrintedFront (λ all. page ++ P.says program.old (lines_of all))
        (R.remaining input.old) (R.remaining input.new) (W.contents output.old) (W.contents output.new)) }
{
    let mut block = Block::new();
    let mut line = Line::new();
    for _ in 0..u64::MAX {
        if program.is_done() {
            return close(program, &mut page, output);
        }
        // a line that lies in the block whole is not copied
        if let Some(n) = whole_line(&line, &block) {
            make_room(&mut page, output)?;
            program.answer(&block.as_slice()[..n.min(SHOWN)], &mut page);
            block.pass(n + 1);
            continue;
        }
        if block.take_line(&mut line) {
            make_room(&mut page, output)?;
            program.answer(line.as_slice(), &mut page);
            line.clear();
            continue;
        }
        if !next_block(&mut block, &mut page, input, output)? {
            answer_last(program, &mut page, &line);
            return close(program, &mut page, output);
        }
    }
    Err(io::Error::other("too many turns"))
}
