// What programs print for a line that has not the right form.
ghost use Rattle.std.specs.Prelude.{◌≡◌};
ghost use Rattle.text.specs.BadLines.{bad_text};
ghost use Rattle.text.specs.Texts.{with_piece};

use crate::texts::Text;

// Puts the number of a line and BAD, whole or not at all.
#[tactic(auto, unfolding(crate::specs::BadLines::bad_text))]
pub fn put_bad<const ROOM: usize>(text: &mut Text<ROOM>, number: u64)
    ensures { text.new ≡ with_piece ROOM text.old (bad_text number) }
{
    // room for the longest number and BAD
    let mut line = Text::<32>::new();
    line.put_decimal(number);
    line.put(b" BAD\n");
    text.add(line.as_slice());
}
