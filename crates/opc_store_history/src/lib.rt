//! The tables of what happened.
#![tactic(auto)]

pub mod account;
pub mod answered;
pub mod batches;
pub mod log;
pub mod messages;
