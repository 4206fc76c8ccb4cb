// Numbers in decimal: read from a text, and put into a buffer.
ghost use Rattle.std.specs.Prelude.{◌≡◌, ◌≤◌, ℕ, List, length, drop};
ghost use Rattle.text.specs.Decimal.{digits_from, up_to, decimal_of, digits, decimal_text};
ghost use Rattle.text.specs.Putting.{put_at, place_after};

use crate::hex::digit_in;
use crate::putting::put_text;
use std::marker::Model;

// The number in some digits, if it is at most the limit.
#[tactic(auto, using(crate::proofs::DecimalLaws::past_limit, crate::proofs::DecimalLaws::within_limit, crate::proofs::DecimalLaws::digit_other, crate::proofs::DecimalLaws::digit_more))]
fn read_digits(text: &[u8], limit: u32) -> Option<u64>
    ensures { result ≡ up_to limit (digits_from 0 text.now) }
{
    let limit = u64::from(limit);
    let mut n = 0;
    for &c in text {
        n = n * 10 + u64::from(digit_in(10, c)?);
        if limit < n {
            return None;
        }
    }
    Some(n)
}

// The number that a text is: 1 or more, with no leading zero, and at most the limit.
#[tactic(auto, using(crate::proofs::DecimalLaws::first_none, crate::proofs::DecimalLaws::first_zero, crate::proofs::DecimalLaws::first_other))]
pub fn read_decimal(text: &[u8], limit: u32) -> Option<u64>
    ensures { result ≡ decimal_of limit text.now }
{
    match text {
        [] | [b'0', ..] => None,
        _ => read_digits(text, limit),
    }
}

// The digits of a number: those from index `from` to the end of the array.
#[derive(Drop)]
struct Digits {
    chars: [u8; 20],
    from: usize,
}

impl Model for Digits {
    ghost Value = { List ℕ };

    ghost view = { λ d. drop d.from d.chars };

    ghost invariant = { λ d. (d.from ≤ 20) × (length d.chars ≡ 20) };
}

impl Digits {
    #[tactic(auto, using(crate::proofs::DecimalLaws::stands_more, crate::proofs::DecimalLaws::stands_turn, crate::proofs::DecimalLaws::stands_end))]
    fn of(n: u64) -> Self
        ensures { result ≡ digits 20 n }
    {
        let mut chars = [0u8; 20];
        let mut from: usize = 20;
        let mut rest = n;
        while rest > 0 {
            from -= 1;
            chars[from] = (rest % 10) as u8 + b'0';
            rest /= 10;
        }
        Digits { chars, from }
    }

    fn as_slice(&self) -> &[u8]
        ensures { result.now ≡ self.now }
    {
        &self.chars[self.from..]
    }
}

// Puts a number in decimal at index `at`; returns the next index.
#[tactic(auto, using(crate::proofs::DecimalLaws::text_zero, crate::proofs::DecimalLaws::text_digits))]
pub fn put_decimal(buf: &mut [u8], at: usize, n: u64) -> usize
    ensures { (result ≡ place_after (length buf.old) at (decimal_text n)) × (buf.new ≡ put_at buf.old at (decimal_text n)) }
{
    if n == 0 {
        return put_text(buf, at, b"0");
    }
    put_text(buf, at, Digits::of(n).as_slice())
}
