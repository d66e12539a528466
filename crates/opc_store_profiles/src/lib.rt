//! The tables of profiles and of their access lists.
#![tactic(auto)]

pub mod entries;
mod levels;
mod lists;
pub mod profiles;
