//! One exchange of `decide` over HTTP: a question is read and answered by the policy file that is there, its
//! response is written, and what a log tells of it.
#![tactic(auto)]

pub mod configuration;
pub mod point;
mod response;
pub mod serving;
mod telling;
