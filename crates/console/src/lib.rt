// What lies between a program that answers lines and its standard input and output: it reads blocks, hands out lines
// one by one, and writes text.
#![tactic(auto)]

pub mod answering;
pub mod blocks;
pub mod lines;
pub mod pages;
