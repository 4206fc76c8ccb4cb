// A line of a journey: a count of refusals, or none if the line has another form.
ghost use Rattle.std.specs.Prelude.{◌≡◌};
ghost use Rattle.worst.specs.Journeys.{is_zero, count_of};

use text::decimal::read_decimal;

// The longest count has 3 digits.
const LONGEST: usize = 3;

// The most that a count can be.
const MOST_COUNT: u32 = 255;

// The digit 0 alone.
#[tactic(auto, using(crate::proofs::CountLaws::zero_other, crate::proofs::CountLaws::zero_one))]
fn is_zero(chars: &[u8]) -> bool
    ensures { result ≡ is_zero chars.now }
{
    chars.len() == 1 && chars[0] == b'0'
}

// The count that some characters are.
#[tactic(auto, using(crate::proofs::CountLaws::count_long, crate::proofs::CountLaws::count_zero, crate::proofs::CountLaws::count_other, crate::proofs::CountLaws::number_small))]
pub fn count_of(chars: &[u8]) -> Option<u8>
    ensures { result ≡ count_of chars.now }
{
    if LONGEST < chars.len() {
        return None;
    }
    if is_zero(chars) {
        return Some(0);
    }
    let n = read_decimal(chars, MOST_COUNT)?;
    u8::try_from(n).ok()
}
