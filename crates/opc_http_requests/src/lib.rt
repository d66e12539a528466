//! Requests over HTTP, read from a source: the head, its route, the body, and what they ask for.
#![tactic(auto)]

pub mod ask;
pub mod body;
pub mod body_key;
pub mod body_values;
pub mod fault;
pub mod framing;
pub mod head;
mod keys;
pub mod laws;
pub mod number;
mod operation;
pub mod origins;
mod path;
pub mod plan;
pub mod refusal;
pub mod routes;
