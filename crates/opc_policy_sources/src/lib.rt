//! The source of the level that a user holds in a profile, and the level in each profile that covers a resource.
#![tactic(auto)]

mod entries;
pub mod laws;
pub mod levels;
pub mod levels_text;
pub mod sources;
mod text;
