// A frame laid down in a lent buffer: flag, address, stuffed data, stuffed FCS, flag. And the theorems that reading and laying
// down undo each other.
#![tactic(auto)]

ghost use Rattle.std.specs.Prelude.{◌≡◌, [], ◌∷◌, ◌++◌, ◌/◌, ◌%◌, ◌≤◌, ltb, length, drop};
ghost use Rattle.std.proofs.lemmas.List.Edits.{sets};
ghost use Rattle.laying.specs.Laying.{body_with, line_with, line_of, laid_of, left_by, number_of, laid_answer, answer_to_laying};

use stuffing::FLAG;

// The FCS as it is sent, high byte first.
fn fcs_bytes(check: u16) -> [u8; 2]
    ensures { result ≡ check / 256 ∷ check % 256 ∷ [] }
{
    check.to_be_bytes()
}

// Lays down the body with a given FCS at the start of the buffer; returns its length.
#[tactic(auto, using(crate::proofs::LayingLaws::body_length_lem, crate::proofs::LayingLaws::body_laid))]
fn lay_body(dst: &mut [u8], addr: u8, data: &[u8], check: u16) -> usize
    requires { length (body_with check addr «data».now) ≤ length dst.old }
    ensures length { result ≡ length (body_with check addr «data».now) }
    ensures stored { dst.new ≡ sets dst.old 0 (body_with check addr «data».now) }
{
    let sent = fcs_bytes(check);
    dst[0] = addr;
    let n = stuffing::stuff_at(data, dst, 1);
    stuffing::stuff_at(&sent, dst, n)
}

// The same with both flags. The bytes after the closing flag are left as they were.
#[tactic(auto, using(crate::proofs::LayingLaws::line_length, crate::proofs::LayingLaws::line_laid))]
fn lay_line(buf: &mut [u8], addr: u8, data: &[u8], check: u16) -> usize
    requires { length (line_with check addr «data».now) ≤ length buf.old }
    ensures length { result ≡ length (line_with check addr «data».now) }
    ensures stored { buf.new ≡ line_with check addr «data».now ++ drop (length (line_with check addr «data».now)) buf.old }
{
    buf[0] = FLAG;
    let n = lay_body(&mut buf[1..], addr, data, check);
    buf[n + 1] = FLAG;
    n + 2
}

// The length of that line.
#[tactic(auto, using(crate::proofs::LayingLaws::line_length, crate::proofs::LayingLaws::body_length_lem, stuffing::proofs::StuffingLaws::stuff_most))]
fn line_len(addr: u8, data: &[u8], check: u16) -> usize
    requires { length «data».now ≤ 269 }
    ensures { result ≡ length (line_with check addr «data».now) }
{
    let sent = fcs_bytes(check);
    3 + stuffing::stuffed_len(data) + stuffing::stuffed_len(&sent)
}

// Two flags, an address, and at most 269 bytes of data and two of FCS, which stuffing at most doubles.
const LONGEST_LINE: usize = 545;

// Whether a buffer is too short for that line. One that is long enough for any line needs no count.
#[tactic(auto, using(crate::proofs::LayingLaws::line_most))]
fn lacks_room(room: usize, addr: u8, data: &[u8], check: u16) -> bool
    requires { length «data».now ≤ 269 }
    ensures { result ≡ ltb room (length (line_with check addr «data».now)) }
{
    if LONGEST_LINE <= room {
        return false;
    }
    room < line_len(addr, data, check)
}

// Why application data are not laid down.
#[derive(Clone, Copy, Debug, PartialEq, Eq)]
pub enum Unfit {
    // an address that no station may have
    Reserved,
    // not 4 to 269 bytes
    Form,
    // the buffer is too short
    Room,
}

impl Unfit {
    // Document 01's number.
    pub fn number(self) -> u8
        ensures { result ≡ number_of self }
    {
        match self {
            Unfit::Reserved => 5,
            Unfit::Form => 8,
            Unfit::Room => 20,
        }
    }
}

// Lays down application data for an address, and returns the length on the line, or leaves the buffer untouched.
#[tactic(auto, unfolding(crate::specs::Laying::laid_of))]
pub fn lay(buf: &mut [u8], addr: u8, data: &[u8]) -> Result<usize, Unfit>
    ensures laid { result ≡ laid_of (length buf.old) addr «data».now }
    ensures left { buf.new ≡ left_by result (line_of addr «data».now) buf.old }
    ensures answer { laid_answer result ≡ answer_to_laying (length buf.old) addr «data».now }
{
    if wire::reserved(addr) {
        return Err(Unfit::Reserved);
    }
    if data.len() < 4 || 269 < data.len() {
        return Err(Unfit::Form);
    }
    let check = wire::fcs(addr, data);
    if lacks_room(buf.len(), addr, data, check) {
        return Err(Unfit::Room);
    }
    Ok(lay_line(buf, addr, data, check))
}
