//! What is loaded of a board for a command, an event, a logon or a logoff: the rows that it names or depends on.
#![tactic(auto)]

pub mod footprint;
mod keys;
mod load_one;
mod load_several;
