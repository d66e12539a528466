//! Rows kept in the order of their keys.
#![tactic(auto)]

mod rows;

pub use rows::{Keyed, Rows};
