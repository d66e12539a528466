//! A folder with each state of a policy as a file of its own, and the present one.
#![tactic(auto)]

pub mod fault;
pub mod folder;
pub mod keeping;
pub mod name;
