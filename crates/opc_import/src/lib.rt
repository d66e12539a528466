//! Policy files: a policy's rows as comma-separated text, read and written.
#![tactic(auto)]

pub mod column;
pub mod csv_bytes;
pub mod each;
pub mod extent;
pub mod fault;
pub mod field;
pub mod kind;
pub mod laws;
mod line;
pub mod read;
mod records;
pub mod write;

pub use crate::fault::ImportFault;
pub use crate::read::read_policy;
pub use crate::write::write_policy;
