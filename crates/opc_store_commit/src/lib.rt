//! Changes put into the tables.
#![tactic(auto)]

pub mod commit;
