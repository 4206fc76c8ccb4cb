// What the tick call does: the inputs are stored, then the tick runs. One function for each rule, as in `rules`, over the borrowed
// state. Only the crates of the agent call these, and `firmware`.
#![tactic(auto)]

pub mod inputs;
pub mod on_tick;
pub mod tick;
