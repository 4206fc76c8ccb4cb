// Fields stored one after another, each a number of a given width, high byte first.
ghost use Rattle.std.specs.Prelude.{◌≡◌, ◌+◌, ◌≤◌, length};
ghost use Rattle.std.proofs.lemmas.List.Edits.{sets};
ghost use Rattle.base.specs.Bytes.{bytes_of};
ghost use Rattle.fields.specs.Fields.{laid};
ghost use Rattle.frame_kinds.specs.Kinds.{head_of, tail_of};

use crate::kinds::Frame;
use crate::number::store_number;

// A field: its width in bytes and its number.
pub type Field = (u8, u64);

// Stores a number at index `at`; returns the next index.
pub fn put_number(dst: &mut [u8], at: usize, width: usize, n: u64) -> usize
    requires { at + width ≤ length dst.old }
    ensures next { result ≡ at + width }
    ensures stored { dst.new ≡ sets dst.old at (bytes_of width n) }
{
    store_number(dst, at, width, n);
    at + width
}

// Stores fields, starting at index `at`; returns the next index.
#[tactic(auto, using(base::proofs::Sets::sets_append, base::proofs::Numbers::length_bytes_of), unfolding(fields::specs::Fields::laid))]
pub fn put_fields(dst: &mut [u8], at: usize, fields: &[Field]) -> usize
    requires { at + length (laid fields.now) ≤ length dst.old }
    ensures next { result ≡ at + length (laid fields.now) }
    ensures stored { dst.new ≡ sets dst.old at (laid fields.now) }
{
    let mut to = at;
    for &(width, n) in fields {
        to = put_number(dst, to, usize::from(width), n);
    }
    to
}

// Stores the fields before the data at the start of the buffer; returns the next index.
pub fn put_head(dst: &mut [u8], f: Frame) -> usize
    requires { length (laid (head_of f)) ≤ length dst.old }
    ensures next { result ≡ length (laid (head_of f)) }
    ensures stored { dst.new ≡ sets dst.old 0 (laid (head_of f)) }
{
    match f {
        Frame::Sync { src, cyc } => put_fields(
            dst,
            0,
            &[(1, 0x00), (3, src.into()), (1, cyc.into())],
        ),
        Frame::SafeRead {
            dest,
            src,
            cyc,
            seq,
            datl,
            add,
        } => put_fields(
            dst,
            0,
            &[
                (1, 0x07),
                (3, dest.into()),
                (3, src.into()),
                (1, cyc.into()),
                (1, seq.into()),
                (1, 0x88),
                (1, datl.into()),
                (1, add.into()),
            ],
        ),
        Frame::SafeWrite {
            dest,
            src,
            cyc,
            seq,
            datl,
            add,
        } => put_fields(
            dst,
            0,
            &[
                (1, 0x07),
                (3, dest.into()),
                (3, src.into()),
                (1, cyc.into()),
                (1, seq.into()),
                (1, 0x77),
                (1, datl.into()),
                (1, add.into()),
            ],
        ),
        Frame::PlainRead { src, datl, add } => put_fields(
            dst,
            0,
            &[
                (1, 0x08),
                (1, src.into()),
                (1, 0x02),
                (1, datl.into()),
                (1, add.into()),
            ],
        ),
        Frame::PlainWrite { src, datl, add } => put_fields(
            dst,
            0,
            &[
                (1, 0x08),
                (1, src.into()),
                (1, 0x01),
                (1, datl.into()),
                (1, add.into()),
            ],
        ),
        Frame::SafeResponse {
            dest,
            src,
            cyc,
            seq,
            com,
            datl,
            add,
            ..
        } => put_fields(
            dst,
            0,
            &[
                (1, 0x70),
                (3, dest.into()),
                (3, src.into()),
                (1, cyc.into()),
                (1, seq.into()),
                (1, com.into()),
                (1, datl.into()),
                (1, add.into()),
            ],
        ),
        Frame::PlainSyncResponse { src, datl, add, .. } => put_fields(
            dst,
            0,
            &[
                (1, 0x80),
                (1, src.into()),
                (1, 0x01),
                (1, datl.into()),
                (1, add.into()),
            ],
        ),
        Frame::PlainResponse {
            src,
            com,
            datl,
            add,
        } => put_fields(
            dst,
            0,
            &[
                (1, 0x80),
                (1, src.into()),
                (1, com.into()),
                (1, datl.into()),
                (1, add.into()),
            ],
        ),
        Frame::TidAssignment { src, iid, tid } => put_fields(
            dst,
            0,
            &[(1, 0x3C), (1, src.into()), (8, iid), (1, tid.into())],
        ),
        Frame::SidAssignment { src, sec, mac, sid } => put_fields(
            dst,
            0,
            &[
                (1, 0xC3),
                (3, src.into()),
                (4, sec.into()),
                (8, mac),
                (3, sid.into()),
            ],
        ),
        Frame::SidAssignment4 {
            src,
            sec,
            mac,
            sid,
            sid2,
            src2,
        } => put_fields(
            dst,
            0,
            &[
                (1, 0xC3),
                (3, src.into()),
                (4, sec.into()),
                (8, mac),
                (3, sid.into()),
                (3, sid2.into()),
                (3, src2.into()),
            ],
        ),
        Frame::Acknowledgement {
            src,
            dst: to,
            sec,
            mac,
        } => put_fields(
            dst,
            0,
            &[
                (1, 0x33),
                (3, src.into()),
                (3, to.into()),
                (4, sec.into()),
                (8, mac),
            ],
        ),
        Frame::Invariants {
            dest,
            src,
            cyc,
            seq,
            config,
            logic,
        } => put_fields(
            dst,
            0,
            &[
                (1, 0xB4),
                (3, dest.into()),
                (3, src.into()),
                (1, cyc.into()),
                (1, seq.into()),
                (2, config.into()),
                (2, logic.into()),
            ],
        ),
    }
}

// Stores the fields after the data, starting at index `at`; returns the next index.
pub fn put_tail(dst: &mut [u8], at: usize, f: Frame) -> usize
    requires { at + length (laid (tail_of f)) ≤ length dst.old }
    ensures next { result ≡ at + length (laid (tail_of f)) }
    ensures stored { dst.new ≡ sets dst.old at (laid (tail_of f)) }
{
    match f {
        Frame::SafeResponse { stat, .. } | Frame::PlainSyncResponse { stat, .. } => put_fields(
            dst,
            at,
            &[(1, stat.into())],
        ),
        _ => put_fields(dst, at, &[]),
    }
}
