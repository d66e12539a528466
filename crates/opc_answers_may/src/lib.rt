//! Answers for people, by a policy: what one user may.
#![tactic(auto)]

mod change;
pub mod change_json;
pub mod change_text;
pub mod commands;
pub mod json;
pub mod laws;
mod listing;
pub mod logons;
pub mod may;
pub mod text;
pub mod values;
