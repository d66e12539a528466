//! Policies that are imported in numbered batches: the outcome of a batch.
#![tactic(auto)]

pub mod bootstrap;
pub mod import;
