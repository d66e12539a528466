//! Decisions by policy files, as bytes: which policy a file is, and the answers to questions by it.
#![tactic(auto)]

pub mod answering;
pub mod decider;
mod evaluating;
pub mod loading;
mod told;
