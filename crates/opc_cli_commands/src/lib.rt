//! The commands that an operator may type: their table, with what each needs, and what helps whoever mistypes one.
#![tactic(auto)]

mod form;
mod hint;
pub mod laws;
mod operands;
mod row;
mod shown_words;
mod spelling;
pub mod table;
mod verbs;

pub use crate::hint::{hint_about, question};
pub use crate::spelling::nearest;
