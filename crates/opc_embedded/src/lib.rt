//! Questions about policies that another program has as bytes. No file is opened, and nothing is printed.
#![tactic(auto)]

pub mod asking;
mod comparing;
pub mod kept;
pub mod reply;
mod room;
pub mod texts;
pub mod unanswered;
mod words;
