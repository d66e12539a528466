//! The outcomes of the operations of administration, by what is loaded for them; nothing is written.
#![tactic(auto)]

pub mod administration;
mod consoles;
mod members;
mod outcomes;
mod profiles;
