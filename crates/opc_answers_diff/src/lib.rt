//! What changes from one policy to another, over all names.
#![tactic(auto)]

pub mod asked;
pub mod compared;
pub mod consoles;
pub mod consoles_shown;
mod decides_shown;
pub mod gains;
pub mod laws;
pub mod logons;
pub mod members;
pub mod row_changes;
mod row_place;
mod row_text;
pub mod rows_shown;
pub mod sections;
mod unchanged;
pub mod users_shown;
pub mod verdicts;
