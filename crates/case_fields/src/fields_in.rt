// The frame that a case asks for: by kind, each field in its width, high byte first.
ghost use Rattle.std.specs.Prelude.{◌≡◌, ◌≤◌};
ghost use Rattle.case_fields.specs.Kinds.{sync_at, safe_read_at, safe_write_at, plain_read_at, plain_write_at, safe_response_at, plain_sync_response_at};
ghost use Rattle.case_fields.specs.Kinds.{plain_response_at, tid_assignment_at, sid_assignment_at, sid_assignment4_at, acknowledgement_at, invariants_at, frame_at, fields_len};

use fields::Reader;
use frame_kinds::kinds::Frame;

pub const LAST_KIND: u8 = 0x0C;

const LENGTHS: [u8; 13] = [5, 12, 12, 3, 3, 14, 4, 4, 10, 20, 28, 20, 14];

// How many bytes the fields of a kind have; 0 past the last kind.
#[tactic(auto, using(crate::proofs::KindLaws::length_most))]
pub fn fields_len(kind: u8) -> usize
    ensures len { result ≡ fields_len kind }
    ensures most { result ≤ 28 }
{
    let len = LENGTHS.get(usize::from(kind)).copied().unwrap_or(0);
    usize::from(len)
}

fn sync(s: &[u8]) -> Frame
    ensures { result ≡ sync_at s.now }
{
    let r = Reader::new(s);
    Frame::Sync {
        src: r.at(0).u32(),
        cyc: r.at(4).u8(),
    }
}

fn safe_read(s: &[u8]) -> Frame
    ensures { result ≡ safe_read_at s.now }
{
    let r = Reader::new(s);
    Frame::SafeRead {
        dest: r.at(0).u32(),
        src: r.at(4).u32(),
        cyc: r.at(8).u8(),
        seq: r.at(9).u8(),
        datl: r.at(10).u8(),
        add: r.at(11).u8(),
    }
}

fn safe_write(s: &[u8]) -> Frame
    ensures { result ≡ safe_write_at s.now }
{
    let r = Reader::new(s);
    Frame::SafeWrite {
        dest: r.at(0).u32(),
        src: r.at(4).u32(),
        cyc: r.at(8).u8(),
        seq: r.at(9).u8(),
        datl: r.at(10).u8(),
        add: r.at(11).u8(),
    }
}

fn plain_read(s: &[u8]) -> Frame
    ensures { result ≡ plain_read_at s.now }
{
    let r = Reader::new(s);
    Frame::PlainRead {
        src: r.at(0).u8(),
        datl: r.at(1).u8(),
        add: r.at(2).u8(),
    }
}

fn plain_write(s: &[u8]) -> Frame
    ensures { result ≡ plain_write_at s.now }
{
    let r = Reader::new(s);
    Frame::PlainWrite {
        src: r.at(0).u8(),
        datl: r.at(1).u8(),
        add: r.at(2).u8(),
    }
}

fn safe_response(s: &[u8]) -> Frame
    ensures { result ≡ safe_response_at s.now }
{
    let r = Reader::new(s);
    Frame::SafeResponse {
        dest: r.at(0).u32(),
        src: r.at(4).u32(),
        cyc: r.at(8).u8(),
        seq: r.at(9).u8(),
        com: r.at(10).u8(),
        datl: r.at(11).u8(),
        add: r.at(12).u8(),
        stat: r.at(13).u8(),
    }
}

fn plain_sync_response(s: &[u8]) -> Frame
    ensures { result ≡ plain_sync_response_at s.now }
{
    let r = Reader::new(s);
    Frame::PlainSyncResponse {
        src: r.at(0).u8(),
        datl: r.at(1).u8(),
        add: r.at(2).u8(),
        stat: r.at(3).u8(),
    }
}

fn plain_response(s: &[u8]) -> Frame
    ensures { result ≡ plain_response_at s.now }
{
    let r = Reader::new(s);
    Frame::PlainResponse {
        src: r.at(0).u8(),
        com: r.at(1).u8(),
        datl: r.at(2).u8(),
        add: r.at(3).u8(),
    }
}

fn tid_assignment(s: &[u8]) -> Frame
    ensures { result ≡ tid_assignment_at s.now }
{
    let r = Reader::new(s);
    Frame::TidAssignment {
        src: r.at(0).u8(),
        iid: r.at(1).u64(),
        tid: r.at(9).u8(),
    }
}

fn sid_assignment(s: &[u8]) -> Frame
    ensures { result ≡ sid_assignment_at s.now }
{
    let r = Reader::new(s);
    Frame::SidAssignment {
        src: r.at(0).u32(),
        sec: r.at(4).u32(),
        mac: r.at(8).u64(),
        sid: r.at(16).u32(),
    }
}

fn sid_assignment4(s: &[u8]) -> Frame
    ensures { result ≡ sid_assignment4_at s.now }
{
    let r = Reader::new(s);
    Frame::SidAssignment4 {
        src: r.at(0).u32(),
        sec: r.at(4).u32(),
        mac: r.at(8).u64(),
        sid: r.at(16).u32(),
        sid2: r.at(20).u32(),
        src2: r.at(24).u32(),
    }
}

fn acknowledgement(s: &[u8]) -> Frame
    ensures { result ≡ acknowledgement_at s.now }
{
    let r = Reader::new(s);
    Frame::Acknowledgement {
        src: r.at(0).u32(),
        dst: r.at(4).u32(),
        sec: r.at(8).u32(),
        mac: r.at(12).u64(),
    }
}

fn invariants(s: &[u8]) -> Frame
    ensures { result ≡ invariants_at s.now }
{
    let r = Reader::new(s);
    Frame::Invariants {
        dest: r.at(0).u32(),
        src: r.at(4).u32(),
        cyc: r.at(8).u8(),
        seq: r.at(9).u8(),
        config: r.at(10).u16(),
        logic: r.at(12).u16(),
    }
}

// The frame of a kind with the fields in a slice. The kind stays a byte here and in an answer, since `frame_at` and `fields_len`
// promise of every byte.
#[tactic(auto, unfolding(crate::specs::Kinds::frame_at))]
pub fn frame_at(kind: u8, s: &[u8]) -> Frame
    ensures { result ≡ frame_at kind s.now }
{
    match kind {
        0x00 => sync(s),
        0x01 => safe_read(s),
        0x02 => safe_write(s),
        0x03 => plain_read(s),
        0x04 => plain_write(s),
        0x05 => safe_response(s),
        0x06 => plain_sync_response(s),
        0x07 => plain_response(s),
        0x08 => tid_assignment(s),
        0x09 => sid_assignment(s),
        0x0A => sid_assignment4(s),
        0x0B => acknowledgement(s),
        0x0C..=0xFF => invariants(s),
    }
}
