// A line of a case program: the bytes of its case, and the answer in hex digits. An answer of no bytes is printed as BAD.
ghost use Rattle.std.specs.Prelude.{◌≡◌, ◌+◌, ◌≤◌, ◌++◌, length};
ghost use Rattle.cases.specs.Cases.{case_of, answer_text};

use frame_words::texts::Text;
use text::hex::hex_bytes;
use text::texts;

// Room for 2,048 bytes in hex digits, and the LF.
pub type Line = texts::Text<4097>;

// The bytes of a line, in an array that is lent: none if it has over 1,200 characters, or is not pairs of hex digits.
#[tactic(auto, using(crate::proofs::CaseLaws::case_long))]
pub fn case_of<'a>(line: &[u8], bytes: &'a mut [u8; 600]) -> &'a [u8]
    ensures { result.now ≡ case_of line.now }
{
    if 1200 < line.len() {
        return &[];
    }
    match hex_bytes(line, bytes) {
        Ok(n) => &bytes[..n],
        Err(_) => &[],
    }
}

// Puts an answer as text behind what is there.
#[tactic(auto, using(crate::proofs::AnswerLaws::put_bad, crate::proofs::AnswerLaws::put_hex))]
pub fn put_answer_text<const ROOM: usize>(text: &mut texts::Text<ROOM>, answer: &[u8])
    requires { length text.old + length (answer_text answer.now) ≤ ROOM }
    ensures { text.new ≡ text.old ++ answer_text answer.now }
{
    if answer.is_empty() {
        text.add(b"BAD\n");
        return;
    }
    text.add_hex(answer);
    text.end_line();
}

// An answer as text.
pub fn answer_text(t: &Text) -> Line
    ensures { result ≡ answer_text t.now }
{
    let mut line = Line::new();
    put_answer_text(&mut line, t.as_slice());
    line
}
