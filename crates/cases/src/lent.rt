// A word and an answer, put in a buffer of the caller's own at an index of it: whole, or not at all if they do not fit.
ghost use Rattle.std.specs.Prelude.{◌≡◌, length};
ghost use Rattle.base.specs.Bytes.{bytes_of};
ghost use Rattle.text.specs.Putting.{put_at, place_after};
ghost use Rattle.cases.specs.Cases.{answer_text};

use crate::answers::answer_text;
use frame_words::texts::Text;
use text::putting::put_text;

// Puts a number in two bytes, high byte first; returns the next index. `layings::add_word` adds the same to a text.
#[tactic(auto, unfolding(base::specs::Bytes::bytes_of))]
pub fn put_word(buf: &mut [u8], at: usize, n: usize) -> usize
    ensures { (result ≡ place_after (length buf.old) at (bytes_of 2 n)) × (buf.new ≡ put_at buf.old at (bytes_of 2 n)) }
{
    put_text(buf, at, &((n % 65536) as u16).to_be_bytes())
}

// Puts an answer as text; returns the next index. `answers::put_answer_text` puts the same behind a text.
pub fn put_answer(answer: &Text, out: &mut [u8], at: usize) -> usize
    ensures { (result ≡ place_after (length out.old) at (answer_text answer.now)) × (out.new ≡ put_at out.old at (answer_text answer.now)) }
{
    put_text(out, at, answer_text(answer).as_slice())
}
