//! How many rows the account has, over any tables: the number of its last row.
#![tactic(auto)]

pub mod length;
