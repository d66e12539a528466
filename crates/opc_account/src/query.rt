//! A query of the account.
use crate::filter::Filter;

/// The first row that is looked at.
#[derive(Clone, Copy, Debug, PartialEq, Eq)]
pub enum First {
    /// The row of this number.
    Number(u64),
    /// The first of this many last rows.
    Last(u64),
}

/// Which rows are shown: from the first one on those that meet the filter, at most this many; and how.
#[derive(Clone, Copy)]
pub struct Query<'a> {
    pub first: First,
    pub count: u64,
    pub filter: Filter<'a>,
    pub json: bool,
}
