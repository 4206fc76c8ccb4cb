// Lines of text: cut from blocks of input, read as hex digits or decimal numbers, and put together for output.
#![tactic(auto)]

pub mod bad_lines;
pub mod decimal;
pub mod hex;
pub mod lines;
pub mod putting;
pub mod texts;
