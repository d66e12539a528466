//! The state of the access machine, and what the machine requires of the tables that keep it.
#![tactic(auto)]

pub mod account;
pub mod change;
pub mod difference;
pub mod laws;
mod member;
pub mod tables;
