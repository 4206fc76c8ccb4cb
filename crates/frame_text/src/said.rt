// What is printed for a line that is wrong; and for a refusal, which is added to a text.
ghost use Rattle.std.specs.Prelude.{◌≡◌, [], ◌∷◌};
ghost use Rattle.frame_words.specs.Texts.{puts};
ghost use Rattle.frame_text.specs.Said.{bad_start, bad_text, words_of, refusal, refused_reading, refused_as_read};

use frame_forms::FrameFault;
use frame_reading::{BodyFault, Received};
use frame_words::table::Field;
use frame_words::texts::Text;
use wire::LineFault;

// What is wrong with a line.
#[derive(Clone, Copy)]
pub enum Wrong {
    // the first word is no kind, nor `body`
    Kind,
    // a body that is not pairs of hex digits
    Body,
    // data that are not
    Data,
    // a field that is missing or wrong
    Field(Field),
    // more than the last field
    More,
}

impl Wrong {
    // Adds its words.
    fn add_to(self, text: &mut Text)
        ensures { text.new ≡ puts text.old (words_of self) }
    {
        match self {
            Wrong::Kind => text.add(b"no such kind"),
            Wrong::Body => text.add(b"body wants pairs of hex digits"),
            Wrong::Data => text.add(b"data= wants pairs of hex digits"),
            Wrong::Field((name, digits)) => {
                text.add(name);
                text.add(b" wants ");
                text.add_number(digits.into());
                text.add(b" hex digits");
            }
            Wrong::More => text.add(b"more behind the last field"),
        }
    }
}

// The line's number and BAD; what is wrong comes after them.
fn bad_start(number: &[u8]) -> Text
    ensures { result ≡ bad_start number.now }
{
    let mut text = Text::new();
    text.add(number);
    text.add(b" BAD: ");
    text
}

pub fn bad(number: &[u8], words: &[u8]) -> Text
    ensures { result ≡ bad_text number.now (words.now ∷ []) }
{
    let mut text = bad_start(number);
    text.add(words);
    text
}

// The same with the words for what is wrong.
pub fn bad_line(number: &[u8], wrong: Wrong) -> Text
    ensures { result ≡ bad_text number.now (words_of wrong) }
{
    let mut text = bad_start(number);
    wrong.add_to(&mut text);
    text
}

// The words of a refusal.
fn words_for(fault: BodyFault) -> &'static [u8]
    ensures { result.now ≡ refusal fault }
{
    match fault {
        BodyFault::Line(LineFault::Length) => b"body not 7 to 543 bytes",
        BodyFault::Line(LineFault::Stuffing) => b"stuffing",
        BodyFault::Line(LineFault::Size) => b"unstuffed length not 7 to 272",
        BodyFault::Line(LineFault::Check) => b"FCS",
        BodyFault::Line(LineFault::Reserved) => b"reserved address",
        BodyFault::Frame(FrameFault::Kind) => b"TYP not built",
        BodyFault::Frame(FrameFault::Form) => b"length, COM or sync address wrong for the TYP",
        BodyFault::Frame(FrameFault::Check) => b"safety CRC",
    }
}

// Adds document 01's number of a refusal, and its words.
pub fn refused(text: &mut Text, fault: BodyFault)
    ensures { text.new ≡ refused_reading text.old fault }
{
    text.add(b"refused ");
    text.add_number(fault.number().into());
    text.add(b": ");
    text.add(words_for(fault));
}

// The same for what the reader of frames returned, a frame too: its number is 0, and it has no words. It is for a caller that holds
// the reader's result.
pub fn refused_as_read(text: &mut Text, reading: Result<Received, BodyFault>)
    ensures { text.new ≡ refused_as_read text.old reading.entry }
{
    match reading {
        Ok(_) => {
            text.add(b"refused ");
            text.add_number(0);
            text.add(b": ");
            text.add(b"");
        }
        Err(fault) => refused(text, fault),
    }
}
