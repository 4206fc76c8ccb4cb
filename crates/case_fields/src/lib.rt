// The fields of a frame as a case gives them, and as an answer gives them.
#![tactic(auto)]

pub mod fields_in;
pub mod fields_out;
pub mod lent;
