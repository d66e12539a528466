//! The search over the tables.
#![tactic(auto)]

pub mod between;
pub mod search;
mod source;
