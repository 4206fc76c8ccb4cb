// Blocks of standard input, and the lines in them.
ghost use Rattle.std.specs.Prelude.{◌≡◌, ◌≤◌, ℕ, List, ◌++◌, [], length, take, drop, IfOk, OnErr, MatchResult, IsFalse};
ghost use Rattle.std.specs.Io.{ReadsAtMost};
ghost use Rattle.std.specs.Io.KnownBytes.{Keeps, Consumes, IsAtEnd, ReadConsumes};
ghost use Rattle.text.specs.Lines.{before_end, has_end, after_end};
ghost use Rattle.console.specs.Blocks.{FullRead, LostRead};
ghost use Rattle.console.specs.Showing.{shown};

use crate::lines::Line;
use std::io;
use std::io::{ErrorKind, Read};
use std::marker::Model;
use text::lines::line_end;

// Reads the next block of the input to the start of a buffer; returns its length, 0 at the end of the input. An
// interrupted read is tried again, in counted turns, since a proved loop has to end.
pub fn read_block<R: Read>(input: &mut R, block: &mut [u8]) -> io::Result<usize>
    ensures bound { ReadsAtMost result block.new }
    ensures bytes { ReadConsumes (R.remaining input.old) (R.remaining input.new) result block.new }
{
    for _ in 0..u64::MAX {
        match input.read(block) {
            Ok(n) => return Ok(n),
            Err(e) => {
                if e.kind() != ErrorKind::Interrupted {
                    return Err(e);
                }
            }
        }
    }
    Err(io::Error::other("too many reads"))
}

// Reads until a buffer is full or the input ends; returns how many bytes were put at its start. A loop over reads, since std's
// `read_exact` does not say what an error leaves.
pub fn read_full<R: Read>(input: &mut R, buf: &mut [u8]) -> io::Result<usize>
    ensures bound { ReadsAtMost result buf.new }
    ensures ok { IfOk result (λ n. FullRead (R.remaining input.old) (R.remaining input.new) buf.new n) }
    ensures err { OnErr result (LostRead (R.remaining input.old) (R.remaining input.new) buf.new) }
{
    let mut done: usize = 0;
    while done < buf.len() {
        let n = read_block(input, &mut buf[done..])?;
        if n == 0 {
            return Ok(done);
        }
        done += n;
    }
    Ok(done)
}

// The block that was read last: what is left of it.
#[derive(Drop)]
pub struct Block {
    bytes: [u8; 65536],
    at: usize,
    end: usize,
}

impl Model for Block {
    ghost Value = { List ℕ };

    ghost view = { λ s. drop s.at (take s.end s.bytes) };

    ghost invariant = { λ s. (s.at ≤ s.end) × (s.end ≤ 65536) };
}

impl Block {
    // Before the first block.
    pub fn new() -> Self
        ensures { result ≡ [] }
    {
        Block {
            bytes: [0; 65536],
            at: 0,
            end: 0,
        }
    }

    pub fn as_slice(&self) -> &[u8]
        ensures { result.now ≡ self.now }
    {
        &self.bytes[self.at..self.end]
    }

    // Goes on behind the first `n` bytes.
    pub fn pass(&mut self, n: usize)
        requires { n ≤ length self.old }
        ensures { self.new ≡ drop n self.old }
    {
        self.at += n;
    }

    // Moves what is left of a line to the line; returns whether its end was there.
    pub fn take_line(&mut self, line: &mut Line) -> bool
        ensures found { result ≡ has_end self.old }
        ensures line { line.new ≡ shown (line.old ++ before_end self.old) }
        ensures left { self.new ≡ after_end self.old }
    {
        let left = &self.bytes[self.at..self.end];
        match line_end(left) {
            Some(n) => {
                line.fill(&left[..n]);
                self.at += n + 1;
                true
            }
            None => {
                line.fill(left);
                self.at = self.end;
                false
            }
        }
    }

    // Reads another block, in place of the last; returns whether there was one.
    pub fn fill<R: Read>(&mut self, input: &mut R) -> io::Result<bool>
        ensures ok { IfOk result (λ more. Consumes (R.remaining input.old) (R.remaining input.new) self.new
            × (IsFalse more → IsAtEnd (R.remaining input.new) × (self.new ≡ []))) }
        ensures err { OnErr result (Keeps (R.remaining input.old) (R.remaining input.new)) }
        ensures none { OnErr result (self.new ≡ []) }
    {
        self.at = 0;
        self.end = 0;
        let n = read_block(input, &mut self.bytes)?;
        self.end = n;
        Ok(n > 0)
    }
}
