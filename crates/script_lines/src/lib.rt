// The lines of a script: what each says, and what it does to the module.
#![tactic(auto)]

pub mod doing;
pub mod forms;
