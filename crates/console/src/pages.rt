// Text that is put together before it is written.
ghost use Rattle.std.specs.Prelude.{◌≡◌, [], OnOk, OnErr, IsTrue, ◌↔◌};
ghost use Rattle.std.specs.Io.KnownBytes.{Appends, WriteAppends};
ghost use Rattle.std.specs.Io.{WritesAtMost};
ghost use Rattle.console.specs.Handing.{HasRoom, HandsOn, AppendsFront};

use std::io;
use std::io::{ErrorKind, Write};
use text::texts::Text;

// Text that waits to be written: that of many lines.
pub type Page = Text<ROOM>;

const ROOM: usize = 16384;

// Room for the longest text that is said to one line.
const MOST: usize = 2048;

// Writes some of a text: none of it if it was interrupted.
fn write_some<W: Write>(output: &mut W, text: &[u8]) -> io::Result<usize>
    ensures bound { WritesAtMost result text.now }
    ensures bytes { WriteAppends (W.contents output.old) (W.contents output.new) result text.now }
{
    match output.write(text) {
        Ok(0) => Err(io::Error::new(ErrorKind::WriteZero, "nothing was written")),
        Ok(n) => Ok(n),
        Err(e) => {
            if e.kind() == ErrorKind::Interrupted {
                return Ok(0);
            }
            Err(e)
        }
    }
}

// Writes a text. A loop over writes, since std's `write_all` does not say what an error leaves; it counts turns, since a proved loop
// has to end.
pub fn write_text<W: Write>(output: &mut W, text: &[u8]) -> io::Result<()>
    ensures ok { OnOk result (Appends (W.contents output.old) (W.contents output.new) text.now) }
    ensures err { OnErr result (AppendsFront (W.contents output.old) (W.contents output.new) text.now) }
{
    let mut rest = text;
    for _ in 0..u64::MAX {
        if rest.is_empty() {
            return Ok(());
        }
        let n = write_some(output, rest)?;
        rest = &rest[n..];
    }
    Err(io::Error::other("too many writes"))
}

// Whether the longest text for one line fits.
pub fn has_room(page: &Page) -> bool
    ensures { IsTrue result ↔ HasRoom page.now }
{
    page.as_slice().len() <= ROOM - MOST
}

// Writes all that is on a page, and clears it.
pub fn hand_on<W: Write>(page: &mut Page, output: &mut W) -> io::Result<()>
    ensures ok { OnOk result (Appends (W.contents output.old) (W.contents output.new) page.old) }
    ensures empty { OnOk result (page.new ≡ []) }
    ensures err { OnErr result (AppendsFront (W.contents output.old) (W.contents output.new) page.old) }
{
    write_text(output, page.as_slice())?;
    page.clear();
    Ok(())
}

// Makes room for the longest text for one line.
pub fn make_room<W: Write>(page: &mut Page, output: &mut W) -> io::Result<()>
    ensures ok { OnOk result (HandsOn (W.contents output.old) (W.contents output.new) page.old page.new) }
    ensures room { OnOk result (HasRoom page.new) }
    ensures err { OnErr result (AppendsFront (W.contents output.old) (W.contents output.new) page.old) }
{
    if has_room(page) {
        return Ok(());
    }
    hand_on(page, output)
}
