//! Policies: users, groups, connects, profiles with their access lists, and the level that a user holds.
#![tactic(auto)]

pub mod connect;
pub mod entries;
pub mod entry;
pub mod groups;
pub mod laws;
pub mod policy;
pub mod profile;
pub mod profiles;
pub mod row;
pub mod user;
pub mod users;
