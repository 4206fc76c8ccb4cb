// The lines of a text that is in memory, one after another.
ghost use Rattle.std.specs.Prelude.{◌≡◌, ◌≤◌, ◌<◌, ℕ, List, length};
ghost use Rattle.std.specs.Iterator.{YieldsFirstRef, item_count};
ghost use Rattle.text.specs.Lines.{before_end, after_end};
ghost use Rattle.console.specs.Lines.{lines_of};

use std::marker::Model;
use text::lines::line_end;

// The first line of a text, without its LF, and the text after it.
#[tactic(auto, using(crate::proofs::TextLines::found_within, crate::proofs::TextLines::found_line, crate::proofs::TextLines::found_rest, crate::proofs::TextLines::none_line, crate::proofs::TextLines::none_rest))]
pub fn split_line(text: &[u8]) -> (&[u8], &[u8])
    ensures line { result.0.now ≡ before_end text.now }
    ensures rest { result.1.now ≡ after_end text.now }
{
    match line_end(text) {
        Some(end) => {
            let (_, rest) = text.split_at(end + 1);
            (&text[..end], rest)
        }
        None => (text, &[]),
    }
}

// The lines of a text that are still to come.
#[derive(Drop)]
pub struct Lines<'a> {
    rest: &'a [u8],
}

impl<'a> Model for Lines<'a> {
    ghost Value = { List (List ℕ) };

    ghost view = { λ s. lines_of s.rest.now };
}

impl<'a> Lines<'a> {
    pub fn new(text: &'a [u8]) -> Self
        ensures { result ≡ lines_of text.now }
    {
        Lines { rest: text }
    }

    // The text that they stand in.
    pub fn rest(&self) -> &'a [u8]
        ensures { lines_of result.now ≡ self.now }
    {
        self.rest
    }
}

impl<'a> Iterator for Lines<'a> {
    type Item = &'a [u8];

    ghost next_gives = { YieldsFirstRef (λ ls. ls) };

    ghost remaining = { item_count (λ ls. ls) };

    #[tactic(auto, using(crate::proofs::TextLines::next_lines, crate::proofs::TextLines::no_lines))]
    fn next(&mut self) -> Option<&'a [u8]> {
        if self.rest.is_empty() {
            return None;
        }
        let (line, rest) = split_line(self.rest);
        self.rest = rest;
        Some(line)
    }
}

#[tactic(auto, using(crate::proofs::TextLines::lines_most))]
pub fn count_lines(text: &[u8]) -> usize
    ensures { result ≡ length (lines_of text.now) }
{
    Lines::new(text).count()
}
