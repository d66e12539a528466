//! The outcomes of commands and events, by what is loaded for them; nothing is written.
#![tactic(auto)]

pub mod command;
mod displays;
mod effects;
