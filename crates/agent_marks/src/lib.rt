// What a refusal and a skip mark and count, and entering fallback and RUN. One function for each rule, as in `rules`, over the
// borrowed state. Only the crates of the agent call these.
#![tactic(auto)]

pub mod fallback;
pub mod marks;
