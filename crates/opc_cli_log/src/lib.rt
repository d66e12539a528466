//! The log of a run: a line for each request that is handled, added to a file.
#![tactic(auto)]

pub mod gate;
pub mod line;
pub mod log;
