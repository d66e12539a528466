//! Exchanges with one client after another.
#![tactic(auto)]

pub mod acceptor;
pub mod arrival;
pub mod arrivals;
pub mod clock;
pub mod exchanges;
pub mod passing;
pub mod policies;
pub mod service;
pub mod serving;
