// The lines of a list that are not frames by their fields: those that print nothing, and a script's own.
#![tactic(auto)]

ghost use Rattle.std.specs.Prelude.{◌≡◌};
ghost use Rattle.list_lines.specs.Listed.{is_silent, is_ticks_or_inputs, has_port, are_pairs, is_port_body};
ghost use Rattle.text.specs.Hex.{hex_pairs};

use frame_words::words;
use text::hex::{HexFault, hex_bytes};

// An empty line, or a comment.
#[tactic(auto, using(crate::proofs::ListedLaws::silent_empty, crate::proofs::ListedLaws::silent_is))]
pub fn is_silent(line: &[u8]) -> bool
    ensures { result ≡ is_silent line.now }
{
    line.is_empty() || line.starts_with(b"#")
}

// Ticks or inputs of a script, by the first word.
#[tactic(auto, using(frame_words::proofs::WordLaws::word_first, frame_words::proofs::WordLaws::first_length, frame_words::proofs::WordLaws::same_pointwise), unfolding(crate::specs::Listed::is_ticks_or_inputs))]
pub fn is_ticks_or_inputs(line: &[u8]) -> bool
    ensures { result ≡ is_ticks_or_inputs line.now }
{
    let word = &line[..words::word_end(line, 0)];
    word == b"T".as_slice() || word == b"I".as_slice()
}

// A port digit and a space.
#[tactic(auto, using(crate::proofs::ListedLaws::port_is, crate::proofs::ListedLaws::port_below, crate::proofs::ListedLaws::port_above, crate::proofs::ListedLaws::port_other, crate::proofs::ListedLaws::port_short))]
pub fn has_port(line: &[u8]) -> bool
    ensures { result ≡ has_port line.now }
{
    matches!(line, [b'0'..=b'9', words::SPACE, ..])
}

// Only pairs of hex digits, perhaps none.
#[tactic(auto, using(crate::proofs::ListedLaws::others_are_not, crate::proofs::ListedLaws::bytes_are_pairs, crate::proofs::ListedLaws::more_are_pairs))]
fn are_pairs(text: &[u8]) -> bool
    ensures { result ≡ are_pairs (hex_pairs text.now) }
{
    hex_bytes(text, &mut []) != Err(HexFault::NotHex)
}

// A body on a port, as a script has it.
#[tactic(auto, using(crate::proofs::ListedLaws::port_long), unfolding(crate::specs::Listed::is_port_body, crate::specs::Listed::pairs_from))]
pub fn is_port_body(line: &[u8]) -> bool
    ensures { result ≡ is_port_body line.now }
{
    has_port(line) && are_pairs(&line[2..])
}
