//! `opcmds digest`: the digest of a password that is typed, as the `user` row of a policy file has it.
#![tactic(auto)]

pub mod answering;
mod line;
mod password;
