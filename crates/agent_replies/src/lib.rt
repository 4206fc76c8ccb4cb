// Replies: built after the effect, and sent. One function for each rule, as in `rules`, over the borrowed state. Only the crates
// of the agent call these.
#![tactic(auto)]

pub mod replies;
pub mod sending;
