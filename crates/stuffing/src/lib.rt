// Stuffing: 7Eh is sent as 7Dh 5Eh, 7Dh as 7Dh 5Dh.
#![tactic(auto)]

ghost use Rattle.std.specs.Prelude.{◌≡◌, true, ◌+◌, ◌≤◌, length};
ghost use Rattle.std.proofs.lemmas.List.Edits.{sets};
ghost use Rattle.stuffing.specs.Stuffing.{stuff_byte, stuff, meaning_of, meaning_escaped, unstuff, told, plain_in, Cleared};

pub const FLAG: u8 = 0x7E;

pub const ESCAPE: u8 = 0x7D;

// What is sent after an escape: for a flag, and for an escape.
pub const FLAG_SENT: u8 = 0x5E;

pub const ESCAPE_SENT: u8 = 0x5D;

// Stores one byte, stuffed, at index `at`; returns the next index.
#[tactic(auto, unfolding(crate::specs::Stuffing::stuff_byte))]
fn put(dst: &mut [u8], at: usize, b: u8) -> usize
    requires { at + length (stuff_byte b) ≤ length dst.old }
    ensures next { result ≡ at + length (stuff_byte b) }
    ensures stored { dst.new ≡ sets dst.old at (stuff_byte b) }
{
    let sent = match b {
        FLAG => FLAG_SENT,
        ESCAPE => ESCAPE_SENT,
        _ => {
            dst[at] = b;
            return at + 1;
        }
    };
    dst[at..at + 2].copy_from_slice(&[ESCAPE, sent]);
    at + 2
}

// Stores the source, stuffed, starting at index `from`; returns the next index.
#[tactic(auto, using(crate::proofs::StuffingLaws::stuff_end))]
pub fn stuff_at(src: &[u8], dst: &mut [u8], from: usize) -> usize
    requires { from + length (stuff src.now) ≤ length dst.old }
    ensures next { result ≡ from + length (stuff src.now) }
    ensures stored { dst.new ≡ sets dst.old from (stuff src.now) }
{
    let mut at = from;
    for &b in src {
        at = put(dst, at, b);
    }
    at
}

// How many bytes one byte becomes when it is stuffed.
#[tactic(auto, unfolding(crate::specs::Stuffing::stuff_byte))]
fn width(b: u8) -> usize
    ensures { result ≡ length (stuff_byte b) }
{
    match b {
        FLAG | ESCAPE => 2,
        _ => 1,
    }
}

// The same for a slice.
#[tactic(auto, using(crate::proofs::StuffingLaws::stuff_end, crate::proofs::StuffingLaws::byte_most))]
pub fn stuffed_len(src: &[u8]) -> usize
    requires { length src.now ≤ 65535 }
    ensures { result ≡ length (stuff src.now) }
{
    let mut n = 0;
    for &b in src {
        n += width(b);
    }
    n
}

// What stood in place of an escape and the byte after it, if they are right.
#[tactic(auto, unfolding(crate::specs::Stuffing::meaning_of))]
fn unescaped(b: u8) -> Option<u8>
    ensures { meaning_escaped result ≡ meaning_of true b }
{
    match b {
        FLAG_SENT => Some(FLAG),
        ESCAPE_SENT => Some(ESCAPE),
        _ => None,
    }
}

// The received bytes without their escapes, into an array that the caller lends: the first 272 of them. Returns how many there
// are, or nothing if a byte is wrong: the array then holds those before it.
#[tactic(auto, unfolding(crate::specs::Stuffing::unstuff, crate::specs::Stuffing::unstuff_from, crate::specs::Stuffing::meaning_of))]
fn plain_into(src: &[u8], bytes: &mut [u8; 272]) -> Option<usize>
    ensures { told result bytes.new ≡ plain_in bytes.old (unstuff src.now) }
{
    let mut len = 0;
    let mut left = src.iter();
    while let Some(&b) = left.next() {
        let plain = match b {
            FLAG => return None,
            ESCAPE => unescaped(*left.next()?)?,
            _ => b,
        };
        // a source no longer than the array fits: the compiler gives it a loop of its own
        if src.len() <= bytes.len() || len < bytes.len() {
            bytes[len] = plain;
        }
        len += 1;
    }
    Some(len)
}

// The same; the array is cleared if a byte is wrong.
pub fn unstuff_into(src: &[u8], bytes: &mut [u8; 272]) -> Option<usize>
    ensures plain { told result bytes.new ≡ plain_in bytes.old (unstuff src.now) }
    ensures cleared { Cleared result bytes.new }
{
    let len = plain_into(src, bytes);
    if len.is_none() {
        *bytes = [0; 272];
    }
    len
}
