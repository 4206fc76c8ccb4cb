// Bytes read from pairs of hex digits, in either case.
ghost use Rattle.std.specs.Prelude.{◌≡◌, ◌≤◌, ◌<◌, length, SomeIff};
ghost use Rattle.text.specs.Hex.{digit_value, pair_of, hex_pairs, stored, told, hex_of, hex_left};

// A digit's value in a base of at most 16, in either case.
#[tactic(auto, using(crate::proofs::HexLaws::digit_same, crate::proofs::HexLaws::digit_past))]
pub fn digit_in(base: u32, c: u8) -> Option<u8>
    requires least { 2 ≤ base }
    requires most { base ≤ 16 }
    ensures { SomeIff result (digit_value c < base) (digit_value c) }
{
    let digit = char::from(c).to_digit(base)?;
    Some(digit as u8)
}

// The byte that two digits stand for.
#[tactic(auto, unfolding(crate::specs::Hex::pair_of))]
fn pair_of(high: u8, low: u8) -> Option<u8>
    ensures { result ≡ pair_of high low }
{
    Some(digit_in(16, high)? * 16 + digit_in(16, low)?)
}

// Puts the bytes that a text stands for at the buffer's start, as many as it has room for; returns how many there are, or nothing
// if the text is not pairs of digits.
#[tactic(auto, using(crate::proofs::HexLaws::stored_more, crate::proofs::HexLaws::stored_end), unfolding(crate::specs::Hex::hex_pairs))]
fn read_pairs(text: &[u8], out: &mut [u8]) -> Option<usize>
    ensures { told result out.new ≡ stored out.old 0 (hex_pairs text.now) }
{
    let mut n = 0;
    let mut left = text.iter();
    while let Some(&high) = left.next() {
        let b = pair_of(high, *left.next()?)?;
        if n < out.len() {
            out[n] = b;
        }
        n += 1;
    }
    Some(n)
}

// Why a text is not read as bytes: it is not pairs of digits, or stands for more bytes than there is room for.
#[derive(Clone, Copy, PartialEq, Eq, Debug)]
pub enum HexFault {
    NotHex,
    NoRoom,
}

// Puts the bytes that a text stands for at the buffer's start, and returns how many there are; if refused, the buffer is left as
// it was.
#[tactic(auto, using(crate::proofs::HexLaws::read_not, crate::proofs::HexLaws::read_long, crate::proofs::HexLaws::read_all))]
pub fn hex_bytes(text: &[u8], out: &mut [u8]) -> Result<usize, HexFault>
    ensures { (result ≡ hex_of (length out.old) (hex_pairs text.now)) × (out.new ≡ hex_left (hex_pairs text.now) out.old) }
{
    let n = read_pairs(text, &mut []).ok_or(HexFault::NotHex)?;
    if out.len() < n {
        return Err(HexFault::NoRoom);
    }
    read_pairs(text, out);
    Ok(n)
}
