//! What the lines of a table of cases do to tables of any kind: edits and changes of them, loads by key, and searches.
//!
//! A line is a verb and its words; a program of cases determines on which tables it is tried. The lines:
//!
//! - `put KIND ROW` and `remove KIND KEY`: one more edit of the next change. A row of the policy, and one that is
//!   removed, is a record of a policy file (`row`); `listed` is a profile with an entry; `-` is a part that is not
//! there.
//! - `many FROM TO EDIT`: an edit for each number from FROM up to TO, for which `#` stands.
//! - `commit`: the change. `commit CODE`: the change with a row of the account. A fault is printed.
//! - `each SUBJECT KEY`: each edit is a change of its own, and what the tables load is printed after each.
//! - `load SUBJECT KEY`: what the tables load. Rows of the board are printed as `put` writes them, rows of the policy
//!   as records.
#![tactic(auto)]

mod board_edits;
mod board_loads;
mod board_words;
pub mod edits;
pub mod loads;
mod policy_edits;
mod policy_loads;
pub mod records;
pub mod searches;
pub mod words;
