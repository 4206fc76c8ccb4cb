// A frame as the numbers of its line's fields, in their order, and back.
ghost use Rattle.std.specs.Prelude.{◌≡◌};
ghost use Rattle.frame_fields.specs.Numbers.{kind_of, numbers_of, frame_of, has_address, address_of, datl_of};
ghost use Rattle.frame_fields.specs.Numbers.{low8 as Numbers·low8, low16 as Numbers·low16, low32 as Numbers·low32};

use frame_kinds::kinds::Frame;
use frame_words::table::Kind;

pub const SYNC_ADDRESS: u8 = 0xFF;

pub fn kind_of(f: Frame) -> Kind
    ensures { result ≡ kind_of f }
{
    match f {
        Frame::Sync { .. } => Kind::Sync,
        Frame::SafeRead { .. } => Kind::Read,
        Frame::SafeWrite { .. } => Kind::Write,
        Frame::PlainRead { .. } => Kind::PlainRead,
        Frame::PlainWrite { .. } => Kind::PlainWrite,
        Frame::SafeResponse { .. } => Kind::Response,
        Frame::PlainSyncResponse { .. } => Kind::PlainSyncResponse,
        Frame::PlainResponse { .. } => Kind::PlainResponse,
        Frame::TidAssignment { .. } => Kind::Tid,
        Frame::SidAssignment { .. } => Kind::Sid,
        Frame::SidAssignment4 { .. } => Kind::Sid4,
        Frame::Acknowledgement { .. } => Kind::Ack,
        Frame::Invariants { .. } => Kind::Invariants,
    }
}

// The address (except of a sync) and the fields, then zeros.
pub fn numbers_of(addr: u8, f: Frame) -> [u64; 8]
    ensures { result ≡ numbers_of addr f }
{
    let a = u64::from(addr);
    match f {
        Frame::Sync { src, cyc } => [src.into(), cyc.into(), 0, 0, 0, 0, 0, 0],
        Frame::SafeRead {
            dest,
            src,
            cyc,
            seq,
            datl,
            add,
        } => [
            a,
            dest.into(),
            src.into(),
            cyc.into(),
            seq.into(),
            datl.into(),
            add.into(),
            0,
        ],
        Frame::SafeWrite {
            dest,
            src,
            cyc,
            seq,
            add,
            ..
        } => [
            a,
            dest.into(),
            src.into(),
            cyc.into(),
            seq.into(),
            add.into(),
            0,
            0,
        ],
        Frame::PlainRead { src, datl, add } => [a, src.into(), datl.into(), add.into(), 0, 0, 0, 0],
        Frame::PlainWrite { src, add, .. } => [a, src.into(), add.into(), 0, 0, 0, 0, 0],
        Frame::SafeResponse {
            dest,
            src,
            cyc,
            seq,
            com,
            add,
            stat,
            ..
        } => [
            a,
            dest.into(),
            src.into(),
            cyc.into(),
            seq.into(),
            com.into(),
            add.into(),
            stat.into(),
        ],
        Frame::PlainSyncResponse { src, add, stat, .. } => [
            a,
            src.into(),
            add.into(),
            stat.into(),
            0,
            0,
            0,
            0,
        ],
        Frame::PlainResponse { src, com, add, .. } => [
            a,
            src.into(),
            com.into(),
            add.into(),
            0,
            0,
            0,
            0,
        ],
        Frame::TidAssignment { src, iid, tid } => [a, src.into(), iid, tid.into(), 0, 0, 0, 0],
        Frame::SidAssignment { src, sec, mac, sid } => [
            a,
            src.into(),
            sec.into(),
            mac,
            sid.into(),
            0,
            0,
            0,
        ],
        Frame::SidAssignment4 {
            src,
            sec,
            mac,
            sid,
            sid2,
            src2,
        } => [
            a,
            src.into(),
            sec.into(),
            mac,
            sid.into(),
            sid2.into(),
            src2.into(),
            0,
        ],
        Frame::Acknowledgement { src, dst, sec, mac } => [
            a,
            src.into(),
            dst.into(),
            sec.into(),
            mac,
            0,
            0,
            0,
        ],
        Frame::Invariants {
            dest,
            src,
            cyc,
            seq,
            config,
            logic,
        } => [
            a,
            dest.into(),
            src.into(),
            cyc.into(),
            seq.into(),
            config.into(),
            logic.into(),
            0,
        ],
    }
}

fn low8(n: u64) -> u8
    ensures { result ≡ Numbers·low8 n }
{
    (n % 0x100) as u8
}

fn low16(n: u64) -> u16
    ensures { result ≡ Numbers·low16 n }
{
    (n % 0x10000) as u16
}

fn low32(n: u64) -> u32
    ensures { result ≡ Numbers·low32 n }
{
    (n % 0x100000000) as u32
}

// The frame of a kind with these numbers; `datl` is its DATL if the line has data=.
pub fn frame_of(kind: Kind, v: [u64; 8], datl: u8) -> Frame
    ensures { result ≡ frame_of kind v datl }
{
    match kind {
        Kind::Sync => Frame::Sync {
            src: low32(v[0]),
            cyc: low8(v[1]),
        },
        Kind::Read => Frame::SafeRead {
            dest: low32(v[1]),
            src: low32(v[2]),
            cyc: low8(v[3]),
            seq: low8(v[4]),
            datl: low8(v[5]),
            add: low8(v[6]),
        },
        Kind::Write => Frame::SafeWrite {
            dest: low32(v[1]),
            src: low32(v[2]),
            cyc: low8(v[3]),
            seq: low8(v[4]),
            datl,
            add: low8(v[5]),
        },
        Kind::PlainRead => Frame::PlainRead {
            src: low8(v[1]),
            datl: low8(v[2]),
            add: low8(v[3]),
        },
        Kind::PlainWrite => Frame::PlainWrite {
            src: low8(v[1]),
            datl,
            add: low8(v[2]),
        },
        Kind::Response => Frame::SafeResponse {
            dest: low32(v[1]),
            src: low32(v[2]),
            cyc: low8(v[3]),
            seq: low8(v[4]),
            com: low8(v[5]),
            datl,
            add: low8(v[6]),
            stat: low8(v[7]),
        },
        Kind::PlainSyncResponse => Frame::PlainSyncResponse {
            src: low8(v[1]),
            datl,
            add: low8(v[2]),
            stat: low8(v[3]),
        },
        Kind::PlainResponse => Frame::PlainResponse {
            src: low8(v[1]),
            com: low8(v[2]),
            datl,
            add: low8(v[3]),
        },
        Kind::Tid => Frame::TidAssignment {
            src: low8(v[1]),
            iid: v[2],
            tid: low8(v[3]),
        },
        Kind::Sid => Frame::SidAssignment {
            src: low32(v[1]),
            sec: low32(v[2]),
            mac: v[3],
            sid: low32(v[4]),
        },
        Kind::Sid4 => Frame::SidAssignment4 {
            src: low32(v[1]),
            sec: low32(v[2]),
            mac: v[3],
            sid: low32(v[4]),
            sid2: low32(v[5]),
            src2: low32(v[6]),
        },
        Kind::Ack => Frame::Acknowledgement {
            src: low32(v[1]),
            dst: low32(v[2]),
            sec: low32(v[3]),
            mac: v[4],
        },
        Kind::Invariants => Frame::Invariants {
            dest: low32(v[1]),
            src: low32(v[2]),
            cyc: low8(v[3]),
            seq: low8(v[4]),
            config: low16(v[5]),
            logic: low16(v[6]),
        },
    }
}

// Whether a line of the kind has to=; that of a sync has none.
fn has_address(kind: Kind) -> bool
    ensures { result ≡ has_address kind }
{
    !matches!(kind, Kind::Sync)
}

pub fn address_of(kind: Kind, v: [u64; 8]) -> u8
    ensures { result ≡ address_of kind v }
{
    if has_address(kind) {
        return low8(v[0]);
    }
    SYNC_ADDRESS
}

// DATL for `n` data bytes; 255 if there are more.
pub fn datl_of(n: usize) -> u8
    ensures { result ≡ datl_of n }
{
    u8::try_from(n).unwrap_or(u8::MAX)
}
