//! Answers to the questions of other programs, by a policy, in the form of the OpenID AuthZEN Authorization API 1.0.
#![tactic(auto)]

pub mod decision;
pub mod evaluation;
pub mod laws;
pub mod policy;
pub mod reply;
mod values;
