//! The tables of a board.
#![tactic(auto)]

pub mod board;
pub mod consoles;
pub mod day;
pub mod devices;
pub mod replies;
pub mod units;
