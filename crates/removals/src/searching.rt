// The smallest number of a frame line without which the script ends in fallback.
ghost use Rattle.std.specs.Prelude.{◌≡◌};
ghost use Rattle.console.specs.Lines.{lines_of};
ghost use Rattle.script_lines.specs.Doing.{script_module};
ghost use Rattle.script_lines.specs.Forms.{line_of};
ghost use Rattle.removals.specs.Removals.{is_frame, is_long, which_of};
ghost use Rattle.removals.specs.Searching.{matters_here, first_from};

use crate::lines::{Lines, count_lines};
use crate::playing::{in_fallback, play, play_line};
use rules::Agent;
use script_lines::doing::script_module;
use script_lines::forms::{Form, no_bytes, read_line};

// Why no line is searched for.
#[derive(Clone, Copy, PartialEq, Eq, Debug)]
pub enum NoSearch {
    // the script is too long
    Long,
    // it ends in fallback itself
    Fallback,
}

const MOST_LINES: usize = 200;

const MOST_BYTES: usize = 60000;

#[tactic(auto, using(crate::proofs::SearchingLaws::frame_read, crate::proofs::SearchingLaws::other_read))]
fn is_frame(line: &[u8]) -> bool
    ensures { result ≡ is_frame (line_of line.now) }
{
    let mut bytes = no_bytes();
    matches!(read_line(line, &mut bytes), Some(Form::Frame(_, _)))
}

// Whether a line is a frame and, without it, the module is in fallback at the end. `agent` is the module before the line, and
// `rest` the text after it.
#[tactic(auto, using(crate::proofs::SearchingLaws::here_other, crate::proofs::SearchingLaws::here_frame))]
fn matters_here(agent: &Agent, line: &[u8], rest: &[u8]) -> bool
    ensures { result ≡ matters_here agent.now line.now (lines_of rest.now) }
{
    if !is_frame(line) {
        return false;
    }
    let mut end = *agent;
    play(&mut end, rest);
    in_fallback(&end)
}

// The first line that matters. The module before each line is kept, so only the lines after it are played again.
#[tactic(auto, using(crate::proofs::SearchingLaws::search_found, crate::proofs::SearchingLaws::search_turn, crate::proofs::SearchingLaws::search_end, crate::proofs::TextLines::lines_most))]
fn first(text: &[u8]) -> Option<u64>
    ensures { result ≡ first_from 1 script_module (lines_of text.now) }
{
    let mut agent = script_module();
    let mut number: u64 = 1;
    let mut lines = Lines::new(text);
    while let Some(line) = lines.next() {
        if matters_here(&agent, line, lines.rest()) {
            return Some(number);
        }
        play_line(&mut agent, line);
        number += 1;
    }
    None
}

fn is_long(text: &[u8]) -> bool
    ensures { result ≡ is_long text.now }
{
    MOST_BYTES < text.len() || MOST_LINES < count_lines(text)
}

// Which one frame of a script mattered: the number of its line, if there is one.
#[tactic(auto, using(crate::proofs::Whole::which_long, crate::proofs::Whole::which_fallback, crate::proofs::Whole::which_found, crate::proofs::Whole::end_is))]
pub fn which_frame(text: &[u8]) -> Result<Option<u64>, NoSearch>
    ensures { result ≡ which_of text.now }
{
    if is_long(text) {
        return Err(NoSearch::Long);
    }
    let mut agent = script_module();
    play(&mut agent, text);
    if in_fallback(&agent) {
        return Err(NoSearch::Fallback);
    }
    Ok(first(text))
}
