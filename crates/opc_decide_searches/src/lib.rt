//! Searches of other programs, in the form of the OpenID AuthZEN Authorization API 1.0: who may do this, what this
//! subject may do, and where.
#![tactic(auto)]

mod asking;
pub mod candidate;
mod finding;
mod page;
pub mod search;
pub mod sought;
