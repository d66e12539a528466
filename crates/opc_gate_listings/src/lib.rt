//! Listings of profiles and of the account: what is loaded for them, and who may see it.
#![tactic(auto)]

pub mod account;
mod listing;
pub mod profiles;
