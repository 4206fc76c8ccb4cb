// The kind and the fields of a frame that was read, each in its width, high byte first.
ghost use Rattle.std.specs.Prelude.{◌≡◌, [], ◌∷◌};
ghost use Rattle.fields.specs.Fields.{laid};
ghost use Rattle.frame_kinds.specs.Kinds.{tail_of};
ghost use Rattle.frame_words.specs.Texts.{put, puts};
ghost use Rattle.case_fields.specs.Kinds.{row_of};

use frame_kinds::kinds::Frame;
use frame_kinds::putting::{Field, put_fields, put_tail};
use frame_words::texts::Text;

// Adds the kind of a frame in place of TYP, then its fields before STAT, without a COM that the kind fixes.
fn add_row(t: &mut Text, f: Frame, kind: u8, fields: &[Field])
    requires kind { kind ≡ (row_of f).0 }
    requires fields { fields.now ≡ (row_of f).1 }
    ensures { t.new ≡ puts t.old (((row_of f).0 ∷ []) ∷ laid (row_of f).1 ∷ []) }
{
    let mut bytes = [0; 28];
    let n = put_fields(&mut bytes, 0, fields);
    t.add(&[kind]);
    t.add(&bytes[..n]);
}

fn add_head(t: &mut Text, f: Frame)
    ensures { t.new ≡ puts t.old (((row_of f).0 ∷ []) ∷ laid (row_of f).1 ∷ []) }
{
    match f {
        Frame::Sync { src, cyc } => add_row(t, f, 0x00, &[(4, src.into()), (1, cyc.into())]),
        Frame::SafeRead {
            dest,
            src,
            cyc,
            seq,
            datl,
            add,
        } => add_row(
            t,
            f,
            0x01,
            &[
                (4, dest.into()),
                (4, src.into()),
                (1, cyc.into()),
                (1, seq.into()),
                (1, datl.into()),
                (1, add.into()),
            ],
        ),
        Frame::SafeWrite {
            dest,
            src,
            cyc,
            seq,
            datl,
            add,
        } => add_row(
            t,
            f,
            0x02,
            &[
                (4, dest.into()),
                (4, src.into()),
                (1, cyc.into()),
                (1, seq.into()),
                (1, datl.into()),
                (1, add.into()),
            ],
        ),
        Frame::PlainRead { src, datl, add } => add_row(
            t,
            f,
            0x03,
            &[(1, src.into()), (1, datl.into()), (1, add.into())],
        ),
        Frame::PlainWrite { src, datl, add } => add_row(
            t,
            f,
            0x04,
            &[(1, src.into()), (1, datl.into()), (1, add.into())],
        ),
        Frame::SafeResponse {
            dest,
            src,
            cyc,
            seq,
            com,
            datl,
            add,
            ..
        } => add_row(
            t,
            f,
            0x05,
            &[
                (4, dest.into()),
                (4, src.into()),
                (1, cyc.into()),
                (1, seq.into()),
                (1, com.into()),
                (1, datl.into()),
                (1, add.into()),
            ],
        ),
        Frame::PlainSyncResponse { src, datl, add, .. } => add_row(
            t,
            f,
            0x06,
            &[(1, src.into()), (1, datl.into()), (1, add.into())],
        ),
        Frame::PlainResponse {
            src,
            com,
            datl,
            add,
        } => add_row(
            t,
            f,
            0x07,
            &[
                (1, src.into()),
                (1, com.into()),
                (1, datl.into()),
                (1, add.into()),
            ],
        ),
        Frame::TidAssignment { src, iid, tid } => add_row(
            t,
            f,
            0x08,
            &[(1, src.into()), (8, iid), (1, tid.into())],
        ),
        Frame::SidAssignment { src, sec, mac, sid } => add_row(
            t,
            f,
            0x09,
            &[(4, src.into()), (4, sec.into()), (8, mac), (4, sid.into())],
        ),
        Frame::SidAssignment4 {
            src,
            sec,
            mac,
            sid,
            sid2,
            src2,
        } => add_row(
            t,
            f,
            0x0A,
            &[
                (4, src.into()),
                (4, sec.into()),
                (8, mac),
                (4, sid.into()),
                (4, sid2.into()),
                (4, src2.into()),
            ],
        ),
        Frame::Acknowledgement { src, dst, sec, mac } => add_row(
            t,
            f,
            0x0B,
            &[(4, src.into()), (4, dst.into()), (4, sec.into()), (8, mac)],
        ),
        Frame::Invariants {
            dest,
            src,
            cyc,
            seq,
            config,
            logic,
        } => add_row(
            t,
            f,
            0x0C,
            &[
                (4, dest.into()),
                (4, src.into()),
                (1, cyc.into()),
                (1, seq.into()),
                (2, config.into()),
                (2, logic.into()),
            ],
        ),
    }
}

// Adds STAT, where the frame has it.
#[tactic(auto, using(crate::proofs::KindLaws::tail_short))]
fn add_tail(t: &mut Text, f: Frame)
    ensures { t.new ≡ put t.old (laid (tail_of f)) }
{
    let mut bytes = [0; 1];
    let n = put_tail(&mut bytes, 0, f);
    t.add(&bytes[..n]);
}

// Adds a frame: its kind in place of TYP, then its fields.
pub fn add_frame(t: &mut Text, f: Frame)
    ensures { t.new ≡ puts t.old (((row_of f).0 ∷ []) ∷ laid (row_of f).1 ∷ laid (tail_of f) ∷ []) }
{
    add_head(t, f);
    add_tail(t, f);
}
