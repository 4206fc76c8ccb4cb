// The fields of a line, one after another: their numbers, or the first that is wrong.
ghost use Rattle.std.specs.Prelude.{◌≡◌, ◌≤◌, length, replicate};
ghost use Rattle.text.specs.Hex.{hex_pairs, hex_of, hex_left};
ghost use Rattle.frame_words.specs.Table.{fields_in, fields_of};
ghost use Rattle.frame_fields.specs.Rows.{value_in, field_value, field_at, read_fields, shown_row, data_word, data_at};

use fields::Reader;
use frame_words::table::{Field, Kind};
use frame_words::words::word_end;
use text::hex::{HexFault, hex_bytes};

// The number in hex digits, if there are `digits` of them, at most 16.
#[tactic(auto, using(text::proofs::HexLaws::read_within, crate::proofs::RowLaws::value_err))]
fn value_of(text: &[u8], digits: u8) -> Option<u64>
    ensures { result ≡ value_in digits (hex_pairs text.now) }
{
    let mut bytes = [0u8; 8];
    let n = hex_bytes(text, &mut bytes).ok()?;
    if n * 2 != usize::from(digits) {
        return None;
    }
    Some(Reader::new(&bytes).number(n))
}

// The number in a word, if the word is the field's name and its digits.
#[tactic(auto, using(crate::proofs::RowLaws::field_other, crate::proofs::RowLaws::field_named))]
fn field_value(field: Field, word: &[u8]) -> Option<u64>
    ensures { result ≡ field_value (field.entry.0.now, field.entry.1) word.now }
{
    value_of(word.strip_prefix(field.0)?, field.1)
}

// The same for the word after the space at index `at`, with the index after it. A line goes with such an index: the definitions
// count by index, and the index after a word is what they hand on.
#[tactic(auto, using(frame_words::proofs::WordLaws::word_within, crate::proofs::RowLaws::field_missing, crate::proofs::RowLaws::field_wrong, crate::proofs::RowLaws::field_there))]
fn field_at(line: &[u8], at: usize, field: Field) -> Option<(u64, usize)>
    ensures { result ≡ field_at line.now at (field.entry.0.now, field.entry.1) }
{
    if line.len() <= at {
        return None;
    }
    let end = word_end(line, at + 1);
    let value = field_value(field, &line[at + 1..end])?;
    Some((value, end))
}

// The numbers of fields that were read, then zeros; and the index after the last.
#[derive(Clone, Copy)]
pub struct Row {
    pub values: [u64; 8],
    pub at: usize,
}

// The first field that is missing or wrong, and the row of those before it.
#[derive(Clone, Copy)]
pub struct Stopped {
    pub read: Row,
    pub field: Field,
}

// The fields from index `at` on, up to the last, or to the first that is wrong.
#[tactic(auto, using(crate::proofs::RowLaws::row_end, crate::proofs::RowLaws::row_wrong, crate::proofs::RowLaws::row_number))]
fn read_row(line: &[u8], at: usize, fields: &[Field]) -> Result<Row, Stopped>
    requires { length fields.now ≤ 8 }
    ensures { shown_row result ≡ read_fields (fields_in fields.now) line.now at 0 (replicate 8 0) }
{
    let mut values = [0u64; 8];
    let mut to = at;
    for (i, &field) in fields.iter().enumerate() {
        let read = Row { values, at: to };
        let (value, next) = field_at(line, to, field).ok_or(Stopped { read, field })?;
        values[i] = value;
        to = next;
    }
    Ok(Row { values, at: to })
}

// The same for the fields of a kind; `at` is the index after its word.
#[tactic(auto, using(crate::proofs::RowLaws::fields_most))]
pub fn read_fields(line: &[u8], at: usize, kind: Kind) -> Result<Row, Stopped>
    ensures { shown_row result ≡ read_fields (fields_of kind) line.now at 0 (replicate 8 0) }
{
    read_row(line, at, kind.fields())
}

// Puts the bytes of a word that starts with data= at the buffer's start.
#[tactic(auto, using(crate::proofs::RowLaws::data_other, crate::proofs::RowLaws::data_named))]
fn data_word(word: &[u8], out: &mut [u8]) -> Result<usize, HexFault>
    ensures { (result ≡ hex_of (length out.old) (data_word word.now)) × (out.new ≡ hex_left (data_word word.now) out.old) }
{
    let digits = word.strip_prefix(b"data=").ok_or(HexFault::NotHex)?;
    hex_bytes(digits, out)
}

// The same for the word after the space at index `at`.
#[tactic(auto, using(frame_words::proofs::WordLaws::word_within, crate::proofs::RowLaws::data_missing, crate::proofs::RowLaws::data_there))]
pub fn data_at(line: &[u8], at: usize, out: &mut [u8]) -> Result<usize, HexFault>
    ensures { (result ≡ hex_of (length out.old) (data_at line.now at)) × (out.new ≡ hex_left (data_at line.now at) out.old) }
{
    if line.len() <= at {
        return Err(HexFault::NotHex);
    }
    let end = word_end(line, at + 1);
    data_word(&line[at + 1..end], out)
}
