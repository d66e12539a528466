//! How answers for people agree with what is stored and with the machine, as laws on definitions.
#![tactic(auto)]

pub mod counting;
pub mod laws;
