//! Which requests may change what a policy file has of a state.
#![tactic(auto)]

pub mod changing;
pub mod laws;
