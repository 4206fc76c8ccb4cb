// The bus agent of one SIL2 output module: power-up, tick and frame call, over the borrowed state. One function for each
// rule, in the order and under the names of the definitions in `rules`; each contract is 'equal to its definition'.
#![tactic(auto)]

pub mod calls;
mod frame_call;
pub mod power_up;
