// Which one frame of a script mattered: the script in memory, played again without each of its frames in turn.
#![tactic(auto)]

mod lines;
mod playing;
mod searching;

pub use searching::{NoSearch, which_frame};
