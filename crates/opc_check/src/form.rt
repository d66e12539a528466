//! For whom lines are written.

/// A line for people, or an object of JSON for programs.
#[derive(Clone, Copy, PartialEq, Eq)]
pub enum Form {
    Text,
    Json,
}
