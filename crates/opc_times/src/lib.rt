//! Timestamps as times in UTC, as RFC 3339 writes them: their texts, and the timestamp that a text names.
#![tactic(auto)]

pub mod reading;
pub mod time;
