//! The policy and the stored batches of tables of version 1 or 2, as upserts into those of version 3. Each query names
//! only columns that both older versions have, and is proved over both schemas.
#![tactic(auto)]

pub mod batches;
pub mod connects;
pub mod edits;
pub mod entries;
pub mod profiles;
pub mod users;
