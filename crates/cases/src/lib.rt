// What the case programs share: the bytes of a line's case, the text of an answer, the answer to laying down, and the program over
// all lines.
#![tactic(auto)]

pub mod answers;
pub mod layings;
pub mod lent;
pub mod running;
