//! The text of a page of rows.
ghost use Rattle.std.specs.Prelude.{◌≡◌, IfOk, length, take};
ghost use Rattle.opc_account.specs.Filters.{met};
ghost use Rattle.opc_account.specs.Lines.{AreLines};

use crate::line::push_row;
use crate::query::Query;
use opc_state::account::AccountRow;
use std::alloc::{AllocError, Global};

/// The lines of the rows of a page that are shown, and how many these are.
#[derive(Drop)]
pub struct Page {
    pub text: Vec<u8>,
    pub count: u64,
}

/// Of a page of rows, those that meet the filter, at most this many.
pub fn page_of(
    alloc: Global,
    query: &Query<'_>,
    rows: &[(u64, AccountRow)],
    most: u64,
) -> Result<Page, AllocError>
    ensures text { IfOk result (λ page. AreLines query.now.json (take most (met query.now.filter rows.now))
        page.text.items) }
    ensures count { IfOk result (λ page. page.count ≡ length (take most (met query.now.filter rows.now))) }
{
    let mut text = Vec::new(alloc);
    let mut count = 0;
    for (number, row) in rows {
        if count < most && query.filter.meets(row) {
            push_row(alloc, &mut text, query.json, *number, row)?;
            count += 1;
        }
    }
    Ok(Page { text, count })
}
