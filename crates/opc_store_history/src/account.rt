//! The table of the account, numbered by SQLite's rowid: one more row neither scans nor reads those that are there, and
//! a page reads only its own rows. The histories are numbered likewise.
ghost use Rattle.std.specs.Prelude.{◌≡◌, ◌-◌, ◌^◌, ℕ, false, pos, min, map, List, IfOk};
ghost use Rattle.opc_store_sql.specs.Steps.{Stays, Looks};
ghost use Rattle.opc_store_schema.specs.Asked.{Finds, Makes};
ghost use Rattle.opc_state.specs.Changes.{with_account_row, with_account};
ghost use Rattle.opc_state.specs.Loads.{asked_for};
ghost use Rattle.opc_state.specs.declared.account.AccountRow.{AccountRow as TheRow};
ghost use Rattle.opc_store_history.specs.Loads.{account_page, numbered_shown};

use opc_rows::Rows;
use opc_state::account::AccountRow;
use opc_store_schema::columns::{text_in, value_in};
use opc_store_schema::queries::read;
use opc_store_sql::numbers::last_number;
use opc_store_sql::run;
use opc_terms::store_fault::StoreFault;
use sqlite::{Alter, Connection, Error, ErrorCode, Row, Transaction, params};
use std::alloc::{AllocError, Global};

fn add_row<S: Alter>(tx: &mut Transaction<'_, S>, row: &AccountRow) -> Result<(), Error>
    ensures same_reference { tx.new.conn.ghost_name ≡ tx.old.conn.ghost_name }
    ensures stays { Stays S.Store tx.old.conn.now tx.new.conn.now result }
    ensures done { Makes S.Store tx.old.conn.now tx.new.conn.now result (with_account_row row.now) }
{
    let Ok(moment) = i64::try_from(row.moment) else {
        return Err(Error::SqliteFailure(ErrorCode::IntegerOverflow));
    };
    run(
        tx,
        "INSERT INTO account VALUES (NULL, ?1, ?2, ?3, ?4, ?5)",
        params![
            moment,
            row.console.as_str(),
            row.user.as_str(),
            row.code.as_str(),
            row.rule.as_str()
        ],
    )?;
    // For the prover alone: that SQLite gave the row a number shows that the account does not outgrow its table.
    let _number = last_number(tx);
    Ok(())
}

/// One more row of the account, if there is one.
pub fn account_for<S: Alter>(
    tx: &mut Transaction<'_, S>,
    row: &Option<AccountRow>,
) -> Result<(), Error>
    ensures same_reference { tx.new.conn.ghost_name ≡ tx.old.conn.ghost_name }
    ensures stays { Stays S.Store tx.old.conn.now tx.new.conn.now result }
    ensures done { Makes S.Store tx.old.conn.now tx.new.conn.now result (with_account row.now) }
{
    match row {
        Some(row) => add_row(tx, row),
        None => Ok(()),
    }
}

// The last number before the requested ones, or the greatest that a table can hold.
fn last_before(from: u64) -> i64
    ensures { result ≡ pos (min (from - 1) (2 ^ 63 - 1)) }
{
    match i64::try_from(from.saturating_sub(1)) {
        Ok(last) => last,
        Err(_) => i64::MAX,
    }
}

fn numbered_in(row: &Row) -> Result<(u64, AccountRow), StoreFault>
    ensures { (p : ℕ × TheRow) → row.now ≡ numbered_shown p → IfOk result (λ v. v ≡ p) }
{
    let number = value_in(row, 0)?;
    Ok((
        number,
        AccountRow {
            moment: value_in(row, 1)?,
            console: text_in(row, 2)?,
            user: text_in(row, 3)?,
            code: text_in(row, 4)?,
            rule: text_in(row, 5)?,
        },
    ))
}

fn page_in(alloc: Global, rows: &[Row]) -> Result<Vec<(u64, AccountRow)>, StoreFault>
    ensures { (page : List (ℕ × TheRow)) → rows.now ≡ map numbered_shown page → IfOk result (λ v. v.items ≡ page) }
{
    let mut page = Vec::new(alloc);
    for row in rows {
        page.push(numbered_in(row)?)?;
    }
    Ok(page)
}

/// The rows of the account from a number on, at most as many as requested, with their numbers, which begin at 1. No
/// other row is read.
pub fn account_page_on<S: Alter>(
    alloc: Global,
    conn: &mut Connection<S>,
    from: u64,
    count: u32,
) -> Result<Vec<(u64, AccountRow)>, StoreFault>
    requires { conn.old.in_transaction ≡ false }
    ensures mode { conn.new.in_transaction ≡ false }
    ensures looks { Looks S.Store conn.old conn.new result }
    ensures found { Finds S.Store conn.old conn.new result (λ s v. v.items ≡ asked_for from count s.account) }
{
    let last = last_before(from);
    let rows = read(
        conn,
        "SELECT number, moment, console, usr, code, rule FROM account WHERE number > ?1 ORDER BY number LIMIT ?2",
        params![last, count],
    )?;
    page_in(alloc, rows.as_slice())
}

fn without_numbers(
    alloc: Global,
    page: Vec<(u64, AccountRow)>,
) -> Result<Rows<AccountRow>, AllocError>
    ensures { IfOk result (λ v. v ≡ map (λ (p : ℕ × TheRow). p.1) page.items) }
{
    let mut rows = Rows::new(alloc);
    for numbered in page {
        rows.push(numbered.1)?;
    }
    Ok(rows)
}

/// The same without their numbers.
pub fn account_on<S: Alter>(
    alloc: Global,
    conn: &mut Connection<S>,
    from: u64,
    count: u32,
) -> Result<Rows<AccountRow>, StoreFault>
    requires { conn.old.in_transaction ≡ false }
    ensures mode { conn.new.in_transaction ≡ false }
    ensures looks { Looks S.Store conn.old conn.new result }
    ensures found { Finds S.Store conn.old conn.new result (λ s v. v ≡ account_page from count s.account) }
{
    let page = account_page_on(alloc, conn, from, count)?;
    let rows = without_numbers(alloc, page)?;
    Ok(rows)
}
