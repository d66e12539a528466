//! The access machine: its requests, its answers, and the outcome of each request, by definition.
#![tactic(auto)]

pub mod fault;
pub mod operation;
pub mod outcome;
pub mod request;
pub mod same;
