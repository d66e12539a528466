//! The files of a database: a new one is its owner's alone, and a refused opening removes what nobody needs. A file
//! that is only queried is read into memory.
#![tactic(auto)]

pub mod copy;
pub mod copying;
pub mod paths;
pub mod site;
pub mod spare;
