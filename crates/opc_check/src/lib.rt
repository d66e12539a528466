//! What is bad in a policy file, in words: rows that cannot be read, and rows that would be refused. This stands below
//! the machine, so that a failure of the program can hold it.
#![tactic(auto)]

pub mod checked;
pub mod counted;
pub mod escape;
mod excess;
pub mod form;
mod judging;
pub mod laws;
mod lines;
mod near_names;
mod obstacle;
pub mod problem;
mod quoted;
pub mod reading;
pub mod refusing;
pub mod row_lines;
pub mod unread;
mod words;

pub use crate::checked::{Checked, check};
pub use crate::form::Form;
pub use crate::judging::{first_bad, judge};
pub use crate::problem::{RowProblem, refusal};
pub use crate::refusing::{Refused, refused_of};
