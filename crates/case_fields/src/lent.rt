// A frame put in a buffer of the caller's own, at an index of it.
ghost use Rattle.std.specs.Prelude.{◌≡◌, [], ◌∷◌};
ghost use Rattle.fields.specs.Fields.{laid};
ghost use Rattle.frame_kinds.specs.Kinds.{tail_of};
ghost use Rattle.case_fields.specs.Kinds.{row_of};
ghost use Rattle.case_fields.specs.Lent.{puts};

use crate::fields_out::add_frame;
use frame_kinds::kinds::Frame;
use frame_kinds::putting::put_tail;
use frame_words::texts::Text;
use text::putting::put_text;

// Puts three pieces one after another, each whole, or not at all if it does not fit; returns the next index.
fn put_pieces(buf: &mut [u8], at: usize, first: &[u8], second: &[u8], third: &[u8]) -> usize
    ensures { (buf.new, result) ≡ puts (buf.old, at) (first.now ∷ second.now ∷ third.now ∷ []) }
{
    let second_at = put_text(buf, at, first);
    let third_at = put_text(buf, second_at, second);
    put_text(buf, third_at, third)
}

// Puts the kind of a frame in place of TYP, then its fields, then STAT, where the frame has it; returns the next index.
// `fields_out::add_frame` adds the same to a text.
#[tactic(auto, using(crate::proofs::KindLaws::tail_short, crate::proofs::LentLaws::kind_within))]
pub fn put_frame(buf: &mut [u8], at: usize, f: Frame) -> usize
    ensures { (buf.new, result) ≡ puts (buf.old, at) (((row_of f).0 ∷ []) ∷ laid (row_of f).1 ∷ laid (tail_of f) ∷ []) }
{
    let mut text = Text::new();
    add_frame(&mut text, f);
    let mut stat = [0; 1];
    let n = put_tail(&mut stat, 0, f);
    let (kind, rest) = text.as_slice().split_at(1);
    let (fields, tail) = rest.split_at(rest.len() - n);
    put_pieces(buf, at, kind, fields, tail)
}
