// Text put together in a lent buffer: each piece is put whole, or not at all if it does not fit.
ghost use Rattle.std.specs.Prelude.{◌≡◌, ◌+◌, ◌≤◌, ◌<◌, leb, length};
ghost use Rattle.std.proofs.lemmas.List.Edits.{sets};
ghost use Rattle.text.specs.BadLines.{bad_text};
ghost use Rattle.text.specs.Putting.{digit_of, hex_digits, hex_text, put_at, place_after};

use crate::bad_lines;
use crate::texts::Text;

// Whether `n` characters fit from index `at`.
fn has_room(len: usize, at: usize, n: usize) -> bool
    ensures { result ≡ leb (at + n) len }
{
    at <= len && n <= len - at
}

// Puts a text at index `at`; returns the next index.
#[tactic(auto, using(crate::proofs::PuttingLaws::put_fits, crate::proofs::PuttingLaws::put_not))]
pub fn put_text(buf: &mut [u8], at: usize, text: &[u8]) -> usize
    ensures { (result ≡ place_after (length buf.old) at text.now) × (buf.new ≡ put_at buf.old at text.now) }
{
    if !has_room(buf.len(), at, text.len()) {
        return at;
    }
    let end = at + text.len();
    buf[at..end].copy_from_slice(text);
    end
}

// A capital hex digit.
#[tactic(auto, unfolding(crate::specs::Putting::digit_of))]
fn digit_of(n: u8) -> u8
    requires { n < 16 }
    ensures { result ≡ digit_of n }
{
    if n < 10 { n + b'0' } else { n + 0x37 }
}

#[tactic(auto, unfolding(crate::specs::Putting::hex_digits))]
fn hex_digits(b: u8) -> [u8; 2]
    ensures { result ≡ hex_digits b }
{
    [digit_of(b / 16), digit_of(b % 16)]
}

// Puts a byte in two digits; returns the next index.
pub fn put_byte(buf: &mut [u8], at: usize, b: u8) -> usize
    ensures { (result ≡ place_after (length buf.old) at (hex_digits b)) × (buf.new ≡ put_at buf.old at (hex_digits b)) }
{
    put_text(buf, at, &hex_digits(b))
}

// Stores a byte in two digits, where there is room for them.
#[tactic(auto, unfolding(crate::specs::Putting::hex_digits))]
fn store_digits(buf: &mut [u8], at: usize, b: u8)
    requires { at + 2 ≤ length buf.old }
    ensures { buf.new ≡ sets buf.old at (hex_digits b) }
{
    let [high, low] = hex_digits(b);
    buf[at] = high;
    buf[at + 1] = low;
}

// Puts bytes in two digits each; returns the next index.
#[tactic(auto, using(crate::proofs::PuttingLaws::put_fits, crate::proofs::PuttingLaws::put_not, crate::proofs::PuttingLaws::text_length, crate::proofs::PuttingLaws::text_end, crate::proofs::PuttingLaws::text_place, crate::proofs::PuttingLaws::text_contents))]
pub fn put_bytes(buf: &mut [u8], at: usize, bytes: &[u8]) -> usize
    ensures { (result ≡ place_after (length buf.old) at (hex_text bytes.now)) × (buf.new ≡ put_at buf.old at (hex_text bytes.now)) }
{
    if !has_room(buf.len(), at, bytes.len() * 2) {
        return at;
    }
    let mut to = at;
    for &b in bytes {
        store_digits(buf, to, b);
        to += 2;
    }
    to
}

// Puts the number of a line and BAD at index `at`, whole or not at all; returns the next index. It is for a caller with a buffer of
// its own; `bad_lines::put_bad` puts the same behind a text.
pub fn put_bad(buf: &mut [u8], at: usize, number: u64) -> usize
    ensures { (result ≡ place_after (length buf.old) at (bad_text number)) × (buf.new ≡ put_at buf.old at (bad_text number)) }
{
    // room for the longest number and BAD
    let mut line = Text::<32>::new();
    bad_lines::put_bad(&mut line, number);
    put_text(buf, at, line.as_slice())
}
