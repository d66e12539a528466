//! Requests to `decide` over HTTP, read from a source: the head, its route, the id that the response repeats, the body.
#![tactic(auto)]

pub mod ask;
mod id;
pub mod laws;
mod plan;
pub mod question;
pub mod routes;
