//! Readers and writers that remember whether one of their calls failed.
#![tactic(auto)]

pub mod sink;
pub mod source;
pub mod stream;
pub mod watched;
