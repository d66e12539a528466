//! Questions about a policy: the rows of a policy file or of open tables, and their answers.
#![tactic(auto)]

pub mod answer;
pub mod answering;
mod asking;
pub mod check_answer;
pub mod checking;
pub mod comparing;
mod difference;
pub mod difference_printing;
pub mod empty_room;
pub mod file_answer;
mod kinds;
pub mod laws;
pub mod may;
mod may_printing;
mod noted;
pub mod openings;
pub mod policy_file;
pub mod printing;
pub mod refusals;
pub mod room_answer;
pub mod sheet;
mod shown_rows;
pub mod sides;
mod stored_notes;
pub mod streams;
mod who_printing;
