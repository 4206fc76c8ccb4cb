// A body explained, and added to a text: the frame's kind, fields and data, or the reader's refusal.
ghost use Rattle.std.specs.Prelude.{◌≡◌, ◌/◌, ◌≤◌, length};
ghost use Rattle.base.specs.Bytes.{bytes_of};
ghost use Rattle.fields.specs.Fields.{width8};
ghost use Rattle.text.specs.Putting.{hex_text};
ghost use Rattle.frame_words.specs.Table.{fields_in};
ghost use Rattle.frame_words.specs.Texts.{put};
ghost use Rattle.frame_text.specs.Explained.{put_fields, frame_text, read_text, is_flagged, explained_text};

use crate::said::refused;
use fields::Reader;
use frame_fields::numbers::{kind_of, numbers_of};
use frame_kinds::kinds::Frame;
use frame_kinds::number::store_number;
use frame_reading::read_frame;
use frame_words::table::Field;
use frame_words::texts::Text;

const FLAG: u8 = 0x7E;

// How many bytes `digits` hex digits make, at most 8.
fn width_of(digits: u8) -> usize
    ensures is { result ≡ width8 (digits / 2) }
    ensures most { result ≤ 8 }
{
    usize::from(digits / 2).min(8)
}

// Adds a number in `digits` hex digits.
#[tactic(auto, using(crate::proofs::ExplainingLaws::stored_bytes))]
fn add_number(text: &mut Text, digits: u8, v: u64)
    ensures { text.new ≡ put text.old (hex_text (bytes_of (width8 (digits / 2)) v)) }
{
    let width = width_of(digits);
    let mut bytes = [0u8; 8];
    store_number(&mut bytes, 0, width, v);
    text.add_hex(&bytes[..width]);
}

// Adds fields, each with a space before it, and their numbers.
#[tactic(auto, using(crate::proofs::ExplainingLaws::put_end))]
fn add_fields(text: &mut Text, fields: &[Field], values: [u64; 8])
    requires { length fields.now ≤ 8 }
    ensures { text.new ≡ put_fields (fields_in fields.now) values 0 text.old }
{
    for (i, &(name, digits)) in fields.iter().enumerate() {
        text.add(b" ");
        text.add(name);
        add_number(text, digits, values[i]);
    }
}

// Adds a frame; its data bytes are in the application data.
#[tactic(auto, using(frame_fields::proofs::RowLaws::fields_most, frame_kinds::proofs::Parts::data_at_lem, crate::proofs::ExplainingLaws::frame_data, crate::proofs::ExplainingLaws::frame_plain))]
fn frame_text(text: &mut Text, addr: u8, f: Frame, app: &[u8])
    ensures { text.new ≡ frame_text text.old addr f app.now }
{
    let kind = kind_of(f);
    text.add(kind.word());
    add_fields(text, kind.fields(), numbers_of(addr, f));
    if kind.has_data() {
        text.add(b" data=");
        text.add_hex(Reader::new(app).at(f.data_place()).bytes(f.data_len()));
    }
}

// Adds the frame that is read from a body, or the refusal.
#[tactic(auto, unfolding(crate::specs::Explained::read_text))]
fn read_text(text: &mut Text, body: &[u8])
    ensures { text.new ≡ read_text text.old body.now }
{
    let mut bytes = [0u8; 272];
    match read_frame(body, &mut bytes) {
        Ok(received) => frame_text(text, received.addr, received.frame, received.app),
        Err(fault) => refused(text, fault),
    }
}

// Whether the first byte and the last are flags.
#[tactic(auto, using(crate::proofs::ExplainingLaws::flagged_short, crate::proofs::ExplainingLaws::flagged_is, crate::proofs::ExplainingLaws::flagged_not, crate::proofs::ExplainingLaws::flagged_open))]
fn is_flagged(bytes: &[u8]) -> bool
    ensures { result ≡ is_flagged bytes.now }
{
    matches!(bytes, [FLAG, .., FLAG])
}

// Explains a body, or a reply as a trace shows it: then the flags are left off.
#[tactic(auto, using(crate::proofs::ExplainingLaws::flagged_long, crate::proofs::ExplainingLaws::no_flags))]
pub fn explained(text: &mut Text, bytes: &[u8])
    ensures { text.new ≡ explained_text text.old bytes.now }
{
    if is_flagged(bytes) {
        read_text(text, &bytes[1..bytes.len() - 1]);
    } else {
        read_text(text, bytes);
    }
}
