// Laying down as a case: the buffer before it; and the answer, which is document 01's number, the length on the line and
// the buffer after it.
ghost use Rattle.std.specs.Prelude.{◌≡◌, [], ◌∷◌};
ghost use Rattle.base.specs.Bytes.{bytes_of};
ghost use Rattle.laying.specs.Laying.{laid_answer};
ghost use Rattle.frame_words.specs.Texts.{put, puts};
ghost use Rattle.cases.specs.Layings.{sent_len, pattern};

use frame_words::texts::Text;
use laying::Unfit;

// The longest buffer that a case may ask for.
pub const MOST: usize = 600;

// Byte i is i modulo 251. `as`, here and below, narrows a remainder, and no From does.
#[tactic(auto, unfolding(crate::specs::Layings::pattern))]
pub fn pattern() -> [u8; 600]
    ensures { result ≡ pattern }
{
    let mut buf = [0u8; 600];
    for (i, b) in buf.iter_mut().enumerate() {
        *b = (i % 251) as u8;
    }
    buf
}

// Adds a number in two bytes, high byte first.
#[tactic(auto, unfolding(base::specs::Bytes::bytes_of))]
pub fn add_word(t: &mut Text, n: usize)
    ensures { t.new ≡ put t.old (bytes_of 2 n) }
{
    t.add(&((n % 65536) as u16).to_be_bytes());
}

// The answer, by the result of laying down and the buffer after it; the length of a refusal is 0.
pub fn laid_answer(laid: Result<usize, Unfit>, buf: &[u8]) -> Text
    ensures { result ≡ puts [] (((laid_answer laid).0 ∷ []) ∷ bytes_of 2 (sent_len laid) ∷ buf.now ∷ []) }
{
    let (number, len) = match laid {
        Ok(len) => (0, len),
        Err(unfit) => (unfit.number(), 0),
    };
    let mut t = Text::new();
    t.add(&[number]);
    add_word(&mut t, len);
    t.add(buf);
    t
}
