//! The shortest resource of a form that all patterns of one list cover and none of another, or that there is none.
#![tactic(auto)]

mod common;
pub mod ends;
mod expand;
pub mod forms;
mod masks;
mod pieces;
mod places;
pub mod qualifier;
mod search;
mod start;
mod texts;
pub mod witness;
