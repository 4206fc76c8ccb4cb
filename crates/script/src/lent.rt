// A line of a script played in lent buffers: the line is kept in one, and its text is put in another.
ghost use Rattle.std.specs.Prelude.{◌≡◌, ◌≤◌, length};
ghost use Rattle.text.specs.Putting.{put_at, place_after};
ghost use Rattle.script_lines.specs.Forms.{line_of};
ghost use Rattle.script.specs.Lent.{line_in};
ghost use Rattle.script.specs.Playing.{after, shown};

use crate::playing::Player;
use script_text::View;
use text::putting::put_text;
use text::texts::Text;

// The player after a line, and the index after the line's text.
#[derive(Clone, Copy)]
pub struct Played {
    pub player: Player,
    pub next: usize,
}

// The first `len` characters of a buffer; none if it does not hold so many. A line with no characters is bad.
#[tactic(auto, using(crate::proofs::LentLaws::all_kept, crate::proofs::LentLaws::not_kept))]
fn kept(line: &[u8], len: usize) -> &[u8]
    ensures { line_of result.now ≡ line_in line.now len }
{
    if line.len() < len {
        return &[];
    }
    &line[..len]
}

// Plays a line of `len` characters, of which the buffer keeps the first; its text goes to index `at` of the output, whole or not at
// all. It is for a caller with buffers of its own; `Player::play_line` plays a whole line, and puts the same behind a text.
pub fn play_line(
    p: Player,
    view: View,
    line: &[u8],
    len: usize,
    out: &mut [u8],
    at: usize,
) -> Played
    ensures { (length (shown view p (line_in line.now len)) ≤ 1700) × (result.player ≡ after p (line_in line.now len)) × (result.next ≡ place_after (length out.old) at (shown view p (line_in line.now len))) × (out.new ≡ put_at out.old at (shown view p (line_in line.now len))) }
{
    let mut player = p;
    // room for the longest line
    let mut text = Text::<1700>::new();
    player.play_line(view, kept(line, len), &mut text);
    let next = put_text(out, at, text.as_slice());
    Played { player, next }
}
