// What is printed, put in a lent buffer.
ghost use Rattle.std.specs.Prelude.{◌≡◌, length};
ghost use Rattle.text.specs.Putting.{put_at, place_after};
ghost use Rattle.script_text.specs.Printing.{header_of};

use crate::View;
use text::putting::put_text;
use text::texts::Text;

// Puts the header at index `at`, whole or not at all; returns the next index. It is for a caller with a buffer of its own;
// `put_header` puts the same behind a text.
pub fn put_header(buf: &mut [u8], at: usize, view: View) -> usize
    ensures { (result ≡ place_after (length buf.old) at (header_of view)) × (buf.new ≡ put_at buf.old at (header_of view)) }
{
    // room for the longer header
    let mut text = Text::<64>::new();
    crate::put_header(&mut text, view);
    put_text(buf, at, text.as_slice())
}
