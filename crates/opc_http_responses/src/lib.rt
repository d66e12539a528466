//! The exact bytes of each response over HTTP.
#![tactic(auto)]

mod body;
pub mod response;
pub mod status;
