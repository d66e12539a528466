//! Which names may follow a sort key: where a text differs from a key, and from which later keys it differs as well, so
//! that a search in the order of the patterns skips them together.
#![tactic(auto)]

pub mod laws;
pub mod past;
