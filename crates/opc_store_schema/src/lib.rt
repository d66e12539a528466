//! What represents a state, and the making of tables.
#![tactic(auto)]

pub mod columns;
pub mod faults;
pub mod laws;
pub mod making;
pub mod names;
pub mod queries;
pub mod there;
pub mod version;
