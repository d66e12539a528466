//! The board: the simulated machine room of units, devices, consoles and replies, on which commands and events act.
#![tactic(auto)]

mod act;
pub mod board;
mod consoles;
mod devices;
pub mod event;
pub mod fault;
pub mod laws;
pub mod line;
pub mod replies;
pub mod rows;
pub mod text;
mod units;

pub use crate::board::{Board, BoardRows};
pub use crate::event::Event;
pub use crate::fault::BoardFault;
pub use crate::line::{Item, Line};
