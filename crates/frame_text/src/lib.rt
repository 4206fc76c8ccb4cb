// What saturn-frame prints for a frame, a body, a refusal and a line that is wrong.
#![tactic(auto)]

pub mod building;
pub mod explaining;
pub mod said;
