// Lists answered line by line, for saturn-frame: frames are built, bodies explained, a script's own lines passed on.
#![tactic(auto)]

mod answering;
mod running;

pub use running::run;
