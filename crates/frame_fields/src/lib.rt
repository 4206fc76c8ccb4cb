// A frame as a line of text: its fields read as the table has them, and their numbers.
#![tactic(auto)]

pub mod numbers;
pub mod rows;
