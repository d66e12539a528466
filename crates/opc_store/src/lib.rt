//! The store: the tables of the gate as the machine requires them, opened, committed to and read.
#![tactic(auto)]

pub mod laws;
pub mod opening;
mod reading;
pub mod reopening;
mod source;
pub mod store;
mod tables;
mod whole;

pub use crate::opening::OpenFault;
pub use crate::store::Store;
pub use opc_state::change::Change;
pub use opc_state::tables::Tables;
