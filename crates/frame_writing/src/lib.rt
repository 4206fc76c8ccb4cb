// Frames written into a lent buffer, and the theorems that reading and writing undo each other.
#![tactic(auto)]

ghost use Rattle.std.specs.Prelude.{◌≡◌, ◌≤◌, length};
ghost use Rattle.std.proofs.lemmas.List.Edits.{sets};
ghost use Rattle.laying.specs.Laying.{left_by, laid_answer};
ghost use Rattle.frame_kinds.specs.Kinds.{app_of};
ghost use Rattle.frame_writing.specs.Writing.{is24, fields_fit, fits, frame_line, written_of, answer_to_writing};

use base::copy_at;
use crc::{Safety, crc_of};
use frame_forms::{plain_com, safe_com};
use frame_kinds::kinds::Frame;
use frame_kinds::putting::{put_head, put_number, put_tail};
use laying::Unfit;

// Whether a number has 24 bits.
fn is24(n: u32) -> bool
    ensures { result ≡ is24 n }
{
    n < 0x1000000
}

// Whether the fields can be laid down.
#[tactic(auto, unfolding(crate::specs::Writing::fields_fit))]
fn fields_fit(addr: u8, f: Frame) -> bool
    ensures { result ≡ fields_fit addr f }
{
    match f {
        Frame::Sync { src, .. } => is24(src) && addr == 0xFF,
        Frame::SafeRead { dest, src, .. }
        | Frame::SafeWrite { dest, src, .. }
        | Frame::Invariants { dest, src, .. } => is24(dest) && is24(src),
        Frame::SafeResponse {
            dest,
            src,
            com,
            datl,
            ..
        } => is24(dest) && is24(src) && safe_com(com, datl),
        Frame::PlainResponse { com, datl, .. } => plain_com(com, datl),
        Frame::SidAssignment { src, sid, .. } => is24(src) && is24(sid),
        Frame::SidAssignment4 {
            src,
            sid,
            sid2,
            src2,
            ..
        } => is24(src) && is24(sid) && is24(sid2) && is24(src2),
        Frame::Acknowledgement { src, dst, .. } => is24(src) && is24(dst),
        Frame::PlainRead { .. }
        | Frame::PlainWrite { .. }
        | Frame::PlainSyncResponse { .. }
        | Frame::TidAssignment { .. } => true,
    }
}

// Whether they can, and there are as many data bytes as the frame says.
#[tactic(auto, unfolding(crate::specs::Writing::fits))]
fn fits_data(addr: u8, f: Frame, len: usize) -> bool
    ensures { result ≡ fits addr f len }
{
    fields_fit(addr, f) && len == f.data_len()
}

// Stores the application data at the start of the buffer; returns their length.
fn put_app(dst: &mut [u8], f: Frame, data: &[u8]) -> usize
    requires { length (app_of f «data».now) ≤ length dst.old }
    ensures length { result ≡ length (app_of f «data».now) }
    ensures stored { dst.new ≡ sets dst.old 0 (app_of f «data».now) }
{
    let a = put_head(dst, f);
    let b = copy_at(data, dst, a);
    let n = put_tail(dst, b, f);
    if f.is_safe() {
        let crc = crc_of::<Safety>(&dst[..n]);
        return put_number(dst, n, 2, crc as u64);
    }
    n
}

// Writes a frame with its data for an address, and returns the length on the line, or leaves the buffer untouched.
#[tactic(auto, unfolding(crate::specs::Writing::written_of))]
pub fn write_frame(buf: &mut [u8], addr: u8, f: Frame, data: &[u8]) -> Result<usize, Unfit>
    ensures written { result ≡ written_of (length buf.old) addr f «data».now }
    ensures left { buf.new ≡ left_by result (frame_line addr f «data».now) buf.old }
    ensures answer { laid_answer result ≡ answer_to_writing (length buf.old) addr f «data».now }
{
    if wire::reserved(addr) {
        return Err(Unfit::Reserved);
    }
    if !fits_data(addr, f, data.len()) {
        return Err(Unfit::Form);
    }
    let mut app = [0; 269];
    let n = put_app(&mut app, f, data);
    laying::lay(buf, addr, &app[..n])
}
