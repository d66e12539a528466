//! Rows with their numbers.
use opc_policy_members::row::Row;

/// A row of a policy file, with its number.
#[derive(Clone, Copy)]
pub struct NumberedRow {
    pub number: u64,
    pub row: Row,
}
