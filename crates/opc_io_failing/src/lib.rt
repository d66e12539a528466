//! A reader and a writer that fail when a test wants them to.
#![tactic(auto)]

pub mod reader;
pub mod writer;
