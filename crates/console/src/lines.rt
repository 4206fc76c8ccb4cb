// A line, as far as it has come.

use text::texts::Text;

// How many characters of a line a program sees: one more than the longest line has, so that a longer one is told from it.
pub const SHOWN: usize = 1201;

// The first characters of a line.
pub type Line = Text<SHOWN>;
