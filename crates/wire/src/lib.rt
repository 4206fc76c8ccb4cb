// What is on the line, read: the body between two flags, which is address, stuffed application data and stuffed FCS.
#![tactic(auto)]

ghost use Rattle.std.specs.Prelude.{◌≡◌, ◌≤◌, length, drop};
ghost use Rattle.std.specs.Borrow.{sem};
ghost use Rattle.stuffing.specs.Stuffing.{unstuff};
ghost use Rattle.wire.specs.Body.{number_of, answer_of, shown, held_in, Within, Unstuffed, left_in, Leaves, left_behind, reserved_addr, fcs_of, checked_body, unstuffed_body, read_body, answer_to_body};

use crc::{Fcs, crc_headed};
use stuffing::unstuff_into;

// Why a body is refused.
#[derive(Clone, Copy, Debug, PartialEq, Eq)]
pub enum LineFault {
    // not 7 to 543 bytes
    Length,
    // a flag, or an escape that stands for nothing
    Stuffing,
    // not 7 to 272 bytes unstuffed, address and FCS included
    Size,
    // another FCS
    Check,
    // an address that no station may have
    Reserved,
}

impl LineFault {
    // Document 01's number.
    pub fn number(self) -> u8
        ensures { result ≡ number_of self }
    {
        match self {
            LineFault::Length => 1,
            LineFault::Stuffing => 2,
            LineFault::Size => 3,
            LineFault::Check => 4,
            LineFault::Reserved => 5,
        }
    }
}

// A valid body: its address, and its application data, which are in the array that the caller lent.
#[derive(Clone, Copy)]
pub struct Body<'a> {
    pub addr: u8,
    pub data: &'a [u8],
}

// The addresses that no station may have.
#[tactic(auto, unfolding(crate::specs::Body::reserved_addr))]
pub fn reserved(addr: u8) -> bool
    ensures { result ≡ reserved_addr addr }
{
    matches!(addr, 0x00 | 0x7D | 0x7E | 0x91..=0xEF | 0xF9..=0xFE)
}

// The FCS of an address and unstuffed data.
#[tactic(auto, unfolding(crate::specs::Body::fcs_of))]
pub fn fcs(addr: u8, data: &[u8]) -> u16
    ensures { result ≡ fcs_of addr «data».now }
{
    crc_headed::<Fcs>(addr, data)
}

// Numbers 4 and 5: the address, and how many of the unstuffed bytes are data. The FCS follows these, high byte first.
#[tactic(auto, unfolding(crate::specs::Body::checked_body))]
fn checked(addr: u8, plain: &[u8]) -> Result<(u8, usize), LineFault>
    requires { 2 ≤ length plain.now }
    ensures body { held_in result plain.now ≡ checked_body addr plain.now }
    ensures within { Within (length plain.now) result }
{
    let (data, sent) = plain.split_at(plain.len() - 2);
    if fcs(addr, data) != u16::from_be_bytes([sent[0], sent[1]]) {
        return Err(LineFault::Check);
    }
    if reserved(addr) {
        return Err(LineFault::Reserved);
    }
    Ok((addr, data.len()))
}

// The same of a body: how many bytes of the lent array are then its data.
#[tactic(auto, unfolding(crate::specs::Body::read_body, crate::specs::Body::unstuffed_body))]
fn found_in(body: &[u8], bytes: &mut [u8; 272]) -> Result<(u8, usize), LineFault>
    ensures body { held_in result bytes.new ≡ read_body body.now }
    ensures within { Within 272 result }
    ensures array { Unstuffed result bytes.old (unstuff (drop 1 body.now)) bytes.new }
{
    if body.len() < 7 || 543 < body.len() {
        return Err(LineFault::Length);
    }
    let len = unstuff_into(&body[1..], bytes).ok_or(LineFault::Stuffing)?;
    // 7 to 272 with the address
    if len < 6 || 271 < len {
        return Err(LineFault::Size);
    }
    checked(body[0], &bytes[..len])
}

// The same. The lent array holds the unstuffed bytes, filled up with zeros; with a fault it holds zeros alone.
pub fn read_into(body: &[u8], bytes: &mut [u8; 272]) -> Result<(u8, usize), LineFault>
    ensures body { held_in result bytes.new ≡ read_body body.now }
    ensures within { Within 272 result }
    ensures array { bytes.new ≡ left_in result (unstuff (drop 1 body.now)) }
{
    *bytes = [0; 272];
    let found = found_in(body, bytes);
    if found.is_err() {
        *bytes = [0; 272];
    }
    found
}

// What was found, with its part of the array lent on.
fn lent_on<'a>(
    bytes: &'a [u8; 272],
    found: Result<(u8, usize), LineFault>,
) -> Result<Body<'a>, LineFault>
    requires { Within 272 found }
    ensures body { shown result ≡ held_in found bytes.now }
    ensures array { left_behind result ≡ left_in found }
{
    let (addr, len) = found?;
    Ok(Body {
        addr,
        data: &bytes[..len],
    })
}

// A body as it came from the line, with its application data in the lent array. Once nothing borrows from it, the array holds what
// `read_into` leaves: with a fault zeros alone.
pub fn read_body<'a>(body: &[u8], bytes: &'a mut [u8; 272]) -> Result<Body<'a>, LineFault>
    ensures body { shown result ≡ read_body body.now }
    ensures answer { answer_of result ≡ answer_to_body body.now }
    ensures* array { sem 𝓛 (Leaves bytes.entry (left_behind result (unstuff (drop 1 body.now)))) }
{
    let found = read_into(body, bytes);
    lent_on(bytes, found)
}
