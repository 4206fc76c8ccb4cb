// The two CRCs of the bus: the frame check sequence (FCS) and the safety CRC. Both start at FFFFh, process the most
// significant bit first and have no final change.
#![tactic(auto)]

ghost use Rattle.std.specs.Prelude.{◌≡◌, ◌∷◌, ℕ};
ghost use Rattle.crc.specs.Crc.{poly_of, crc_byte, crc_from, crc_of};
ghost use Rattle.crc.specs.Crc as poly;
ghost use Rattle.crc.specs.Table.{table_of};

use crate::tables::{fcs_table, safety_table};

mod tables;

// A polynomial, with its table.
pub trait Polynomial {
    ghost poly: { poly.Poly };

    fn table() -> &'static [u16; 256]
        ensures { result.now ≡ table_of (poly_of poly) };
}

// That of the FCS.
#[derive(Clone, Copy)]
pub struct Fcs;

impl Polynomial for Fcs {
    ghost poly = { poly.Fcs };

    fn table() -> &'static [u16; 256] {
        fcs_table()
    }
}

// That of the safety CRC.
#[derive(Clone, Copy)]
pub struct Safety;

impl Polynomial for Safety {
    ghost poly = { poly.Safety };

    fn table() -> &'static [u16; 256] {
        safety_table()
    }
}

// The register before the first byte.
pub const START: u16 = 0xFFFF;

// One byte, by a polynomial's table: the register's low byte moves up, and the entry for its high byte and the byte is added
// (exclusive or).
#[tactic(auto, using(crate::proofs::Table::step_by_table))]
fn shift_byte(crc: u16, byte: u8, table: &[u16; 256]) -> u16
    ensures { (p : ℕ) → table.now ≡ table_of p → result ≡ crc_byte p crc byte }
{
    (crc << 8) ^ table[usize::from((crc >> 8) as u8 ^ byte)]
}

// The bytes of a slice, by the same table.
#[tactic(auto, using(crate::proofs::Laws::of_turn, crate::proofs::Laws::of_end))]
fn shift_bytes(register: u16, s: &[u8], table: &[u16; 256]) -> u16
    ensures { (p : ℕ) → table.now ≡ table_of p → result ≡ crc_from p register s.now }
{
    let mut crc = register;
    for &byte in s {
        crc = shift_byte(crc, byte, table);
    }
    crc
}

// The register after the bytes of a slice, starting from a given register.
pub fn crc_from<P: Polynomial>(register: u16, s: &[u8]) -> u16
    ensures { result ≡ crc_from (poly_of P.poly) register s.now }
{
    shift_bytes(register, s, P::table())
}

// The CRC of a slice.
#[tactic(auto, unfolding(crate::specs::Crc::crc_of))]
pub fn crc_of<P: Polynomial>(s: &[u8]) -> u16
    ensures { result ≡ crc_of P.poly s.now }
{
    crc_from::<P>(START, s)
}

// The CRC of one byte and a slice after it: of a body, the address and the data.
#[tactic(auto, unfolding(crate::specs::Crc::crc_of, crate::specs::Crc::crc_from))]
pub fn crc_headed<P: Polynomial>(head: u8, s: &[u8]) -> u16
    ensures { result ≡ crc_of P.poly (head ∷ s.now) }
{
    let table = P::table();
    shift_bytes(shift_byte(START, head, table), s, table)
}
