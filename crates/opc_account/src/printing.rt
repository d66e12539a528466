//! The rows of the account, one page after another.
ghost use Rattle.std.specs.Prelude.{◌≡◌, ◌≤◌, ◌<◌, IfErr, IfOk, OnOk, take, true};
ghost use Rattle.std.specs.Io.KnownBytes.{Appends};
ghost use Rattle.opc_state.specs.Asked.{Loads};
ghost use Rattle.opc_account.specs.Filters.{met, takes_all};
ghost use Rattle.opc_account.specs.Queries.{rows_from};
ghost use Rattle.opc_cli_failures.specs.Statuses.{IsFailure};
ghost use Rattle.opc_account.specs.Printed.{ArePrinted, IsAccountPrinted, IsPage, header_of};

use crate::last::first_on;
use crate::line::HEADER;
use crate::page::page_of;
use crate::query::Query;
use opc_cli_failures::failure::{Failure, Place};
use opc_cli_failures::status::Status;
use opc_state::tables::Tables;
use opc_terms::fault::Fault;
use opc_terms::store_fault::StoreFault;
use std::alloc::Global;
use std::io::Write;

/// The most rows of a page. A page is loaded, and its text made and written, before the next one.
const ROWS: u32 = 256;

/// Prints the rows that a query shows. Without a filter no other row is loaded.
pub fn print_account<T: Tables, W: Write>(
    alloc: Global,
    tables: &mut T,
    query: &Query<'_>,
    output: &mut W,
) -> Result<Status, Failure>
    ensures { IsAccountPrinted T.meaning W.contents tables.old tables.new query.now output.old output.new result }
{
    let first = match first_on(tables, alloc, query.first) {
        Ok(first) => first,
        Err(fault) => return Err(unloaded(fault)),
    };
    print_header(query.json, output)?;
    print_rows(alloc, tables, query, first, output)?;
    Ok(Status::Done)
}

/// Why rows were not loaded.
fn unloaded(fault: StoreFault) -> Failure
    ensures { IsFailure result.fault }
{
    Failure::of_gate(Fault::from(fault))
}

/// The names of the columns.
fn print_header<W: Write>(is_json: bool, output: &mut W) -> Result<(), Failure>
    ensures text { OnOk result (Appends (W.contents output.old) (W.contents output.new) (header_of is_json)) }
    ensures fails { IfErr result (λ failure. IsFailure failure.fault) }
{
    let header = if is_json { "" } else { HEADER };
    print(header.as_bytes(), output)
}

fn print<W: Write>(text: &[u8], output: &mut W) -> Result<(), Failure>
    ensures text { OnOk result (Appends (W.contents output.old) (W.contents output.new) text.now) }
    ensures fails { IfErr result (λ failure. IsFailure failure.fault) }
{
    match output.write_all(text) {
        Ok(()) => Ok(()),
        Err(error) => Err(Failure::at(Place::Output, error)),
    }
}

/// From a row on, those that the query shows.
fn print_rows<T: Tables, W: Write>(
    alloc: Global,
    tables: &mut T,
    query: &Query<'_>,
    first: u64,
    output: &mut W,
) -> Result<(), Failure>
    requires { 1 ≤ first }
    ensures shows { Loads T.meaning tables.old tables.new result (λ s _. ArePrinted query.now.json
        (take query.now.count (met query.now.filter (rows_from first s.account))) (W.contents output.old)
        (W.contents output.new)) }
    ensures fails { IfErr result (λ failure. IsFailure failure.fault) }
{
    let mut next = first;
    let mut left = query.count;
    while left > 0 {
        let most = page_rows(query, left);
        let page = print_page(alloc, tables, query, next, left, most, output)?;
        left -= page.shown;
        if page.is_last {
            return Ok(());
        }
        next = match next.checked_add(most as u64) {
            Some(next) => next,
            // No table has so many rows.
            None => return Err(Failure::from(Fault::Store)),
        };
    }
    Ok(())
}

/// How many rows the next page has, if this many are left to be shown.
fn page_rows(query: &Query<'_>, left: u64) -> u32
    requires { 0 < left }
    ensures some { 1 ≤ result }
    ensures most { result ≤ 256 }
    ensures all { takes_all query.now.filter ≡ true → result ≤ left }
{
    if query.filter.takes_all() {
        left.min(ROWS as u64) as u32
    } else {
        ROWS
    }
}

/// How many rows of a page were shown, and whether no row follows it.
#[derive(Clone, Copy)]
struct PageEnd {
    shown: u64,
    is_last: bool,
}

/// Of the next page, the rows that meet the filter, at most as many as are left to be shown.
fn print_page<T: Tables, W: Write>(
    alloc: Global,
    tables: &mut T,
    query: &Query<'_>,
    next: u64,
    left: u64,
    most: u32,
    output: &mut W,
) -> Result<PageEnd, Failure>
    ensures shows { Loads T.meaning tables.old tables.new result (λ s page. IsPage query.now next left most s.account
        (W.contents output.old) (W.contents output.new) page.shown page.is_last) }
    ensures few { IfOk result (λ page. page.shown ≤ left) }
    ensures fails { IfErr result (λ failure. IsFailure failure.fault) }
{
    let rows = match tables.account(alloc, next, most) {
        Ok(rows) => rows,
        Err(fault) => return Err(unloaded(fault)),
    };
    let page = match page_of(alloc, query, &rows, left) {
        Ok(page) => page,
        Err(_) => return Err(Failure::from(Fault::NoMemory)),
    };
    print(&page.text, output)?;
    Ok(PageEnd {
        shown: page.count,
        is_last: rows.len() < most as usize,
    })
}
