//! A bounded cache of which profile decides, and of the flags of the state, before the tables of the machine.
#![tactic(auto)]

pub mod cached;
mod deciding_cache;
mod flags;
mod tables;
