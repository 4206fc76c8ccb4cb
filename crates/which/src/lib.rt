// Which one frame of a script mattered: the whole script is read, and one line is printed.
#![tactic(auto)]

mod printing;
mod running;

pub use running::run;
