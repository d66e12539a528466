//! The whole policy, read back from its tables: as a policy, and as the rows of a policy file.
#![tactic(auto)]

pub mod lists;
pub mod named;
pub mod policy;
pub mod rows;
