//! Rulings: who acts at a console, and whether it may make a request; how a need is ruled on there, and what may be
//! shown.
#![tactic(auto)]

mod held;
pub mod requester;
pub mod ruling;
mod shared;
mod shown;
