// Scripts played from power-up, line by line, and the loop over all of them.
#![tactic(auto)]

pub mod lent;
pub mod playing;
mod running;

pub use running::run;
