//! Scripts, and lines that are answered as they are read: requests as lines of a text, and the answers to them.
#![tactic(auto)]

pub mod bad_line;
mod event;
pub mod event_text;
pub mod fault;
pub mod handler;
pub mod laws;
pub mod line;
pub mod listener;
pub mod printer;
pub mod reading_now;
pub mod run;
pub mod script;
pub mod session;
pub mod status;
pub mod terminal;
pub mod transcript;
pub mod turn;
