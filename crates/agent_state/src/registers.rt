// The registers by name (document 000, table 1), runs of stores into them, and numbers in registers: the low byte has the low
// address.
ghost use Rattle.std.specs.Prelude.{◌≡◌, ◌+◌, ◌^◌, ◌<◌, ◌≤◌, length, replicate};
ghost use Rattle.std.proofs.lemmas.List.Edits.{sets};
ghost use Rattle.rules.specs.Registers.{low_bytes, low_number};

pub const MAC: usize = 0x00;

pub const IID: usize = 0x08;

pub const TYP: usize = 0x10;

pub const VER: usize = 0x11;

pub const TID: usize = 0x13;

pub const SID: usize = 0x14;

pub const OUT_REP: usize = 0x17;

pub const TCYC: usize = 0x18;

pub const STATUT: usize = 0x19;

pub const CNF_REP: usize = 0x1A;

pub const CNF_CYC: usize = 0x1B;

pub const AD_REF: usize = 0x1C;

pub const SZ_REF: usize = 0x1D;

pub const CPT_SEQ: usize = 0x20;

pub const CPT_FOR: usize = 0x24;

pub const CONF: usize = 0x25;

// Why the module last left RUN (document 02).
pub const GROUND: usize = 0x26;

pub const OUTPUTS: usize = 0x80;

pub const INPUTS: usize = 0xC0;

// How many outputs, and how many inputs, there are.
pub const IMAGE: usize = 64;

// Stores bytes, starting at `at`. By a loop: `copy_from_slice` would call memmove where the bytes are a request's, and the header
// says that the archive needs memcpy and memset only; a tick would take 125 instructions more.
pub fn put(regs: &mut [u8; 256], at: usize, bytes: &[u8])
    requires { at + length bytes.now ≤ 256 }
    ensures { regs.new ≡ sets regs.old at bytes.now }
{
    for (i, &b) in bytes.iter().enumerate() {
        regs[at + i] = b;
    }
}

// Stores one value in `count` registers, starting at `at`.
pub fn fill(regs: &mut [u8; 256], at: usize, count: usize, x: u8)
    requires { at + count ≤ 256 }
    ensures { regs.new ≡ sets regs.old at (replicate count x) }
{
    regs[at..at + count].fill(x);
}

// Stores the `width` low bytes of a number, starting at `at`.
#[tactic(auto, using(crate::proofs::LowNumbers::low_turn))]
pub fn put_low(regs: &mut [u8; 256], at: usize, width: usize, n: u64)
    requires { at + width ≤ 256 }
    ensures { regs.new ≡ sets regs.old at (low_bytes width n) }
{
    let mut rest = n;
    for i in 0..width {
        regs[at + i] = (rest % 256) as u8;
        rest /= 256;
    }
}

// The number in the three registers starting at `at`.
#[tactic(auto, unfolding(rules::specs::Registers::low_number))]
pub fn number3(regs: &[u8; 256], at: usize) -> u32
    requires { at + 3 ≤ 256 }
    ensures number { result ≡ low_number regs.now at 3 }
    ensures short { result < 2 ^ 24 }
{
    u32::from_le_bytes([regs[at], regs[at + 1], regs[at + 2], 0])
}

// The number in the eight registers starting at `at`.
#[tactic(auto, unfolding(rules::specs::Registers::low_number))]
pub fn number8(regs: &[u8; 256], at: usize) -> u64
    requires { at + 8 ≤ 256 }
    ensures { result ≡ low_number regs.now at 8 }
{
    u64::from_le_bytes([
        regs[at],
        regs[at + 1],
        regs[at + 2],
        regs[at + 3],
        regs[at + 4],
        regs[at + 5],
        regs[at + 6],
        regs[at + 7],
    ])
}
