//! Failures of the program, how they are reported on standard error, the status, and what a terminal shows.
#![tactic(auto)]

pub mod announced;
pub mod bad_line;
pub mod escaped;
pub mod failure;
mod fault_line;
pub mod laws;
mod printing;
pub mod reason;
pub mod screen;
pub mod shown;
pub mod shown_text;
pub mod status;
