// The parts of the agent's state and what is done to each: registers, the ground, TID, limit of requests, recorded
// concentrators, soundness; and why a call is refused. One function for each rule, as in `rules`, over the borrowed state. Only the
// crates of the agent call these, and `agent::calls` passes on `answer`.
#![tactic(auto)]

pub mod grounds;
pub mod limit;
pub mod refusal;
pub mod registers;
pub mod sound;
pub mod sources;
pub mod state;
pub mod tid;
