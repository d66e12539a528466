//! The terms that all crates share: faults, rules, needs, logon modes, kinds of units, ids of entries.
#![tactic(auto)]

pub mod entry_id;
pub mod fault;
pub mod mode;
pub mod need;
pub mod rule;
pub mod store_fault;
pub mod unit_kind;
