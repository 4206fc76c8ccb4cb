// What is printed for a cycle: the number of its first line, and its share of the line as a quotient and a remainder.
#![tactic(auto)]

pub mod lent;

ghost use Rattle.std.specs.Prelude.{◌≡◌, ◌+◌, ◌≤◌, ◌<◌, ◌++◌, length};
ghost use Rattle.text.specs.Texts.{with_piece};
ghost use Rattle.load_text.specs.Shares.{dividend, divisor, quotient, remainder};
ghost use Rattle.load_text.specs.Printing.{front_text, cycle_text, open_text};

use text::texts::Text;

// A cycle: the number of its first line, the wire bytes sent in it, and TCYC at the sync that opened it. TCYC 0 stands for no cycle:
// no module has it, and its line would divide by it, so an Option would still need the test for 0.
#[derive(Clone, Copy)]
pub struct Cycle {
    pub first: u32,
    pub bytes: u32,
    pub tcyc: u8,
}

const WIRE_BYTE: u64 = 10;

const LINE_RATE: u64 = 12000;

// The wire bytes, times 10 bits, times 1,000.
fn dividend(bytes: u32) -> u64
    ensures { result ≡ dividend bytes }
{
    u64::from(bytes) * WIRE_BYTE * 1000
}

// TCYC times 12,000 bits.
fn divisor(tcyc: u8) -> u64
    ensures { result ≡ divisor tcyc }
{
    u64::from(tcyc) * LINE_RATE
}

#[tactic(auto, unfolding(crate::specs::Shares::quotient))]
fn quotient(bytes: u32, tcyc: u8) -> u64
    requires { 0 < tcyc }
    ensures { result ≡ quotient bytes tcyc }
{
    dividend(bytes) / divisor(tcyc)
}

#[tactic(auto, unfolding(crate::specs::Shares::remainder))]
fn remainder(bytes: u32, tcyc: u8) -> u64
    requires { 0 < tcyc }
    ensures { result ≡ remainder bytes tcyc }
{
    dividend(bytes) % divisor(tcyc)
}

// The first line and the quotient, each with its space.
#[tactic(auto, using(text::proofs::DecimalLaws::decimal_length), unfolding(crate::specs::Printing::front_text))]
fn put_front<const ROOM: usize>(text: &mut Text<ROOM>, c: Cycle)
    requires { (0 < c.tcyc) × (length text.old + 64 ≤ ROOM) }
    ensures text { text.new ≡ text.old ++ front_text c }
    ensures len { length text.new ≤ length text.old + 42 }
{
    text.put_decimal(c.first.into());
    text.put(b" ");
    text.put_decimal(quotient(c.bytes, c.tcyc));
    text.put(b" ");
}

// The line of a cycle.
#[tactic(auto, unfolding(crate::specs::Printing::cycle_text))]
fn put_line<const ROOM: usize>(text: &mut Text<ROOM>, c: Cycle)
    requires { (0 < c.tcyc) × (length text.old + 64 ≤ ROOM) }
    ensures { text.new ≡ text.old ++ cycle_text c }
{
    put_front(text, c);
    text.put_decimal(remainder(c.bytes, c.tcyc));
    text.put(b"\n");
}

// Puts the line of a cycle, whole or not at all; nothing if there is no cycle.
pub fn put_cycle<const ROOM: usize>(text: &mut Text<ROOM>, c: Cycle)
    ensures { (length (open_text c) ≤ 64) × (text.new ≡ with_piece ROOM text.old (open_text c)) }
{
    if c.tcyc == 0 {
        return;
    }
    // room for the longest line
    let mut line = Text::<64>::new();
    put_line(&mut line, c);
    text.add(line.as_slice());
}
