//! Answers for people, by a policy: who may do what, and why, as text and as JSON.
#![tactic(auto)]

pub mod answer;
mod asked;
pub mod beginning;
pub mod consoles;
pub mod counts;
pub mod deciding;
pub mod doors;
mod explaining;
pub mod json;
pub mod laws;
pub mod lines;
pub mod logons;
pub mod members;
pub mod needed;
pub mod question;
pub mod raised;
pub mod room;
pub mod shows;
pub mod taken;
pub mod text;
pub mod wanted;
pub mod who;
pub mod why;
mod why_json;
mod why_text;
