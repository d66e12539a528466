//! The line of an exchange in the log of a service.
#![tactic(auto)]

pub mod entry;
pub mod escape;
pub mod laws;
pub mod line;
mod operation;
pub mod typed;
pub mod words;
