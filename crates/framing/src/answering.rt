// The answer to a line of a list, in the order of the rules.
ghost use Rattle.std.specs.Prelude.{◌≡◌, ◌≤◌, [], length};
ghost use Rattle.frame_words.specs.Texts.{put, end_line};
ghost use Rattle.frame_asking.specs.Outcome.{outcome_of, said};
ghost use Rattle.framing.specs.Answers.{answer_of, over_text, passed_text};

use frame_asking::said;
use frame_text::said::bad;
use frame_words::texts::Text;
use list_lines::{has_port, is_port_body, is_silent, is_ticks_or_inputs};

pub const MOST: usize = 1200;

// The answer to a line that is too long: only its number is needed.
pub fn over(number: &[u8]) -> Text
    ensures { result ≡ over_text number.now }
{
    let mut text = bad(number, b"over 1,200 characters");
    text.end_line();
    text
}

// The answer that is the line itself, unchanged.
fn passed(line: &[u8]) -> Text
    ensures { result ≡ passed_text line.now }
{
    let mut text = Text::new();
    text.add(line);
    text.end_line();
    text
}

// What a line asks for, put after a start; what is wrong is told without it.
fn told(number: &[u8], start: &[u8], line: &[u8]) -> Text
    requires { length line.now ≤ 1200 }
    ensures { result ≡ said number.now (put [] start.now) (outcome_of line.now) }
{
    let mut text = Text::new();
    text.add(start);
    said(number, text, line)
}

// The same as a line.
fn told_line(number: &[u8], start: &[u8], line: &[u8]) -> Text
    requires { length line.now ≤ 1200 }
    ensures { result ≡ end_line (said number.now (put [] start.now) (outcome_of line.now)) }
{
    let mut text = told(number, start, line);
    text.end_line();
    text
}

// The answer to a line; `number` is its number, in decimal digits.
#[tactic(auto, using(list_lines::proofs::ListedLaws::port_long, crate::proofs::AnswerLaws::answer_over, crate::proofs::AnswerLaws::answer_silent, crate::proofs::AnswerLaws::answer_ticks, crate::proofs::AnswerLaws::answer_body, crate::proofs::AnswerLaws::answer_port, crate::proofs::AnswerLaws::answer_plain))]
pub fn answer(number: &[u8], line: &[u8]) -> Text
    ensures { result ≡ answer_of number.now line.now }
{
    if MOST < line.len() {
        return over(number);
    }
    if is_silent(line) {
        return Text::new();
    }
    if is_ticks_or_inputs(line) {
        return passed(line);
    }
    if is_port_body(line) {
        return passed(line);
    }
    if has_port(line) {
        return told_line(number, &line[..2], &line[2..]);
    }
    told_line(number, b"", line)
}
