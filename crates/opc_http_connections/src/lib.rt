//! Connections to clients, over which an exchange has a deadline.
#![tactic(auto)]

pub mod connection;
pub mod drain;
pub mod listener;
pub mod socket_file;
pub mod socket_paths;
pub mod timed;
pub mod timer;
pub mod unix;
