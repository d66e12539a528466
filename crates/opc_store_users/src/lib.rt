//! The tables of classes, groups, users and connects.
#![tactic(auto)]

pub mod classes;
pub mod connects;
pub mod groups;
pub mod users;
