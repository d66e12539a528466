//! The account for people: which of its rows are requested, their lines, and how they are printed as they are read.
#![tactic(auto)]

pub mod asked;
pub mod codes;
pub mod filter;
pub mod last;
pub mod laws;
pub mod line;
pub mod page;
pub mod printing;
pub mod query;
