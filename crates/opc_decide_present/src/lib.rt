//! Decisions by the policy file that is there now: it is read anew whenever it is another one.
#![tactic(auto)]

pub mod decider;
pub mod files;
pub mod identity;
pub mod kind;
pub mod present;
mod reading;
pub mod system;
