// A frame by its fields, or a body: what is built or explained is added to a text; or the first thing that is wrong.
// A line goes with the index `at`: the definitions count by index, and the index after a word is what they hand on.
// `length line.now ≤ 1200` stays a clause: `asked` takes any slice of so many bytes, and a type of such lines would ask more of callers.
#![tactic(auto)]

ghost use Rattle.std.specs.Prelude.{◌≡◌, ◌≤◌, length, OnErr};
ghost use Rattle.frame_asking.specs.Outcome.{at_end, with_data, by_kind, by_body, outcome_of, answered, told, said};

use frame_fields::rows::{data_at, read_fields};
use frame_text::building::built;
use frame_text::explaining::explained;
use frame_text::said::{Wrong, bad_line};
use frame_words::called::{Called, called_by};
use frame_words::table::Kind;
use frame_words::texts::Text;
use frame_words::words::word_end;
use text::hex::hex_bytes;

// The frame, if nothing follows its last field.
#[tactic(auto, using(crate::proofs::OutcomeLaws::end_here, crate::proofs::OutcomeLaws::end_more))]
fn at_end(
    text: &mut Text,
    line: &[u8],
    at: usize,
    kind: Kind,
    v: [u64; 8],
    data: &[u8],
) -> Result<(), Wrong>
    ensures told { told result text.new ≡ answered text.old (at_end line.now at kind v «data».now) }
    ensures unchanged { OnErr result (text.new ≡ text.old) }
{
    if at < line.len() {
        return Err(Wrong::More);
    }
    built(text, kind, v, data);
    Ok(())
}

// The data of a kind that has them: at most half as many bytes as the line has characters.
#[tactic(auto, using(text::proofs::HexLaws::read_within, crate::proofs::OutcomeLaws::data_wrong))]
fn with_data(text: &mut Text, line: &[u8], at: usize, kind: Kind, v: [u64; 8]) -> Result<(), Wrong>
    requires { length line.now ≤ 1200 }
    ensures told { told result text.new ≡ answered text.old (with_data line.now at kind v) }
    ensures unchanged { OnErr result (text.new ≡ text.old) }
{
    let mut data = [0u8; 600];
    let n = data_at(line, at, &mut data).map_err(|_| Wrong::Data)?;
    at_end(text, line, word_end(line, at + 1), kind, v, &data[..n])
}

// The fields of a kind, after its word.
#[tactic(auto, using(crate::proofs::OutcomeLaws::kind_wants, crate::proofs::OutcomeLaws::kind_data, crate::proofs::OutcomeLaws::kind_plain))]
fn by_kind(text: &mut Text, line: &[u8], at: usize, kind: Kind) -> Result<(), Wrong>
    requires { length line.now ≤ 1200 }
    ensures told { told result text.new ≡ answered text.old (by_kind line.now at kind) }
    ensures unchanged { OnErr result (text.new ≡ text.old) }
{
    let row = read_fields(line, at, kind).map_err(|stopped| Wrong::Field(stopped.field))?;
    if kind.has_data() {
        return with_data(text, line, row.at, kind, row.values);
    }
    at_end(text, line, row.at, kind, row.values, b"")
}

// A space and pairs of hex digits, after `body`.
#[tactic(auto, using(text::proofs::HexLaws::read_within, crate::proofs::OutcomeLaws::body_missing, crate::proofs::OutcomeLaws::body_wrong))]
fn by_body(text: &mut Text, line: &[u8], at: usize) -> Result<(), Wrong>
    requires { length line.now ≤ 1200 }
    ensures told { told result text.new ≡ answered text.old (by_body line.now at) }
    ensures unchanged { OnErr result (text.new ≡ text.old) }
{
    if line.len() <= at {
        return Err(Wrong::Body);
    }
    let (_, digits) = line.split_at(at + 1);
    let mut body = [0u8; 600];
    let n = hex_bytes(digits, &mut body).map_err(|_| Wrong::Body)?;
    explained(text, &body[..n]);
    Ok(())
}

// What a line asks for, by its first word.
pub fn asked(text: &mut Text, line: &[u8]) -> Result<(), Wrong>
    requires { length line.now ≤ 1200 }
    ensures told { told result text.new ≡ answered text.old (outcome_of line.now) }
    ensures unchanged { OnErr result (text.new ≡ text.old) }
{
    let end = word_end(line, 0);
    match called_by(&line[..end]) {
        Some(Called::Named(kind)) => by_kind(text, line, end, kind),
        Some(Called::Body) => by_body(text, line, end),
        None => Err(Wrong::Kind),
    }
}

// What is printed for a line: what it asks for, put after a text; or without it the line's number and what is wrong.
pub fn said(number: &[u8], mut text: Text, line: &[u8]) -> Text
    requires { length line.now ≤ 1200 }
    ensures { result ≡ said number.now text (outcome_of line.now) }
{
    match asked(&mut text, line) {
        Ok(()) => text,
        Err(wrong) => bad_line(number, wrong),
    }
}
