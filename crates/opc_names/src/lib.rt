//! Names, patterns and their order, reply numbers, access levels, classes, command groups and console authority.
#![tactic(auto)]

pub mod auth;
pub mod bytes;
pub mod class;
mod cover;
pub mod group;
pub mod laws;
pub mod level;
pub mod name;
pub mod pattern;
mod qualifier;
pub mod reply_id;
mod resource;
pub mod rule;
pub mod spellings;
pub mod token;
