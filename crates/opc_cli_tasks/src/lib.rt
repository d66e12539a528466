//! What the command line can ask for, in plain types. They are read from the arguments, and the program does what they
//! say.
#![tactic(auto)]

pub mod question;
pub mod source;
pub mod task;
pub mod work;
