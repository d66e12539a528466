//! Every request to the access machine keeps the invariants of a state.
#![tactic(auto)]

pub mod kept;
pub mod laws;
