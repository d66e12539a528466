//! Commands as they are typed, with their operands: pieces of a line, and what a text in one means.
#![tactic(auto)]

pub mod command;
pub mod folded;
pub mod piece;
pub mod quote;
