// The words of a line: a kind's word and its fields by names and hex digits; lines that are not frames; and text put
// together for output.
#![tactic(auto)]

pub mod called;
pub mod table;
pub mod texts;
pub mod words;
