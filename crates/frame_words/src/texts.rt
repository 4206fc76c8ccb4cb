// The text that is printed for a line of a list.

// Room for a line of 1,200 characters with its LF, and for the page of the grammar.
pub type Text = text::texts::Text<2048>;
