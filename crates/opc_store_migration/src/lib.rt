//! Databases of version 1 or 2, migrated to version 3 in one transaction.
#![tactic(auto)]

pub mod migrate;
pub mod put;
pub mod recreate_tables;
pub mod set_version;
