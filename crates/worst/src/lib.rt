// The worst 1,000 cycles of a journey: its lines read as counts, what is printed for them, and the program over all lines.
#![tactic(auto)]

mod counts;
mod reading;
mod results;
mod running;

pub use running::run;
