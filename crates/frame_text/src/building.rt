// A frame built, and added to a text: its body without the flags, or the writer's refusal.
ghost use Rattle.std.specs.Prelude.{◌≡◌};
ghost use Rattle.frame_text.specs.Built.{frame_built, built_text};

use crate::said::refused;
use frame_fields::numbers::{address_of, datl_of, frame_of};
use frame_forms::FrameFault;
use frame_kinds::kinds::Frame;
use frame_reading::BodyFault;
use frame_words::table::Kind;
use frame_words::texts::Text;
use frame_writing::write_frame;
use laying::Unfit;
use wire::LineFault;

// Adds what is between the flags of the frame's line. Any frame has room in 600 bytes.
#[tactic(auto, using(crate::proofs::BuildingLaws::sent_within, crate::proofs::BuildingLaws::built_sent, crate::proofs::BuildingLaws::built_by))]
fn frame_built(text: &mut Text, addr: u8, f: Frame, data: &[u8])
    ensures { text.new ≡ frame_built text.old addr f «data».now }
{
    let mut line = [0u8; 600];
    match write_frame(&mut line, addr, f, data) {
        Ok(n) => text.add_hex(&line[1..n - 1]),
        Err(Unfit::Reserved) => refused(text, BodyFault::Line(LineFault::Reserved)),
        Err(Unfit::Form) => refused(text, BodyFault::Frame(FrameFault::Form)),
        Err(Unfit::Room) => {}
    }
}

#[tactic(auto, unfolding(crate::specs::Built::built_text))]
pub fn built(text: &mut Text, kind: Kind, v: [u64; 8], data: &[u8])
    ensures { text.new ≡ built_text text.old kind v «data».now }
{
    let f = frame_of(kind, v, datl_of(data.len()));
    frame_built(text, address_of(kind, v), f, data);
}
