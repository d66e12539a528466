//! What the access machine means for those who use it.
#![tactic(auto)]

pub mod effects;
pub mod laws;
pub mod meanings;
pub mod rows;
pub mod rulings;
pub mod spellings;
