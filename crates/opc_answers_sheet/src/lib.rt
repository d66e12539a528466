//! The sheet: a page of HTML that shows who may do what by a policy, and by which source.
#![tactic(auto)]

pub mod callers;
pub mod cells;
pub mod changes;
pub mod commands;
pub mod consoles;
pub mod escaped;
pub mod everywhere;
pub mod examples;
pub mod laws;
pub mod marks;
pub mod named;
pub mod page;
pub mod printing;
pub mod ways;
