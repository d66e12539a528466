//! The gate: requests of all six kinds, each answered and accounted for by the policy as it stands at that time.
#![tactic(auto)]

mod console;
pub mod gate;
pub mod run;

pub use crate::gate::Gate;
pub use opc_machine::operation::Operation;
pub use opc_machine::request::{Answer, Request};
pub use opc_machine::{operation, outcome, request};
