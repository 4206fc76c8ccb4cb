// The line load of a module: a script played from power-up, its wire bytes counted cycle by cycle, and the loop over all lines.
#![tactic(auto)]

mod cycles;
mod running;

pub use running::run;
