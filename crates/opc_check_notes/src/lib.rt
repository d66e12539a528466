//! Notes on a policy file: which rows are in effect, what they leave open, and which have no effect.
#![tactic(auto)]

pub mod connects;
mod deciding;
mod digests;
pub mod effect;
pub mod entries;
mod entry_notes;
mod groups;
pub mod kinds;
pub mod known;
pub mod names;
pub mod note;
pub mod notes;
pub mod numbered;
mod phrases;
mod preceding;
mod profiles;
mod sorted_pairs;
pub mod text;
mod users;
