//! The search that names with the same beginning share: the profiles that may cover one of them are loaded once, and
//! are searched in memory for each name.
#![tactic(auto)]

pub mod candidates;
pub mod laws;

pub use crate::candidates::Candidates;
