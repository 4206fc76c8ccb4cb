// What is printed for a cycle, put in a lent buffer.
ghost use Rattle.std.specs.Prelude.{◌≡◌, ◌≤◌, length};
ghost use Rattle.text.specs.Putting.{put_at, place_after};
ghost use Rattle.load_text.specs.Printing.{open_text};

use crate::Cycle;
use text::putting::put_text;
use text::texts::Text;

// Puts the line of a cycle at index `at` of the output, whole or not at all; nothing if there is no cycle. Returns the next index.
// It is for a caller with a buffer of its own; `put_cycle` puts the same behind a text.
pub fn put_cycle(out: &mut [u8], at: usize, c: Cycle) -> usize
    ensures { (length (open_text c) ≤ 64) × (result ≡ place_after (length out.old) at (open_text c)) × (out.new ≡ put_at out.old at (open_text c)) }
{
    // room for the longest line
    let mut text = Text::<64>::new();
    crate::put_cycle(&mut text, c);
    put_text(out, at, text.as_slice())
}
