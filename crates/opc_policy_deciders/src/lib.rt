//! Which profiles of OPERCMDS decide which resources: form by form, over all names.
#![tactic(auto)]

pub mod candidates;
pub mod decided;
pub mod form;
pub mod kind;
pub mod laws;
mod near;
pub mod pairs;
pub mod places;
