//! The table of batches, whose rows are stored as the text of a policy file.
ghost use Rattle.std.specs.Prelude.{◌≡◌, false, List, Ok, IfOk};
ghost use Rattle.opc_store_sql.specs.Steps.{Stays, Looks};
ghost use Rattle.opc_import.specs.Files.{policy_of};
ghost use Rattle.opc_policy_members.specs.declared.row.Row.{Row as TheRow};
ghost use Rattle.opc_state.specs.Changes.{with_batches};
ghost use Rattle.opc_state.specs.Loads.{batch_rows};
ghost use Rattle.opc_state.specs.Members.{with_batch};
ghost use Rattle.opc_store_schema.specs.Asked.{Finds, Makes};
ghost use Rattle.opc_store_history.specs.Loads.{kept_text};

use opc_board::text::KeptText;
use opc_import::fault::ImportFault;
use opc_import::kind::MOST_ROWS;
use opc_import::read::read_policy;
use opc_import::write::write_policy;
use opc_policy_members::row::Row;
use opc_rows::Rows;
use opc_state::change::Batch;
use opc_store_schema::columns::text_in;
use opc_store_schema::faults::unreadable;
use opc_store_schema::queries::read;
use opc_store_sql::run;
use opc_terms::store_fault::StoreFault;
use sqlite::{Alter, Connection, Error, ErrorCode, Transaction, params};
use std::alloc::{AllocError, Global};

/// A batch of more rows than a policy file has could not be read back, and is not stored.
pub fn put_batch<S: Alter>(
    alloc: Global,
    tx: &mut Transaction<'_, S>,
    batch: &Batch,
) -> Result<(), Error>
    ensures same_reference { tx.new.conn.ghost_name ≡ tx.old.conn.ghost_name }
    ensures stays { Stays S.Store tx.old.conn.now tx.new.conn.now result }
    ensures done { Makes S.Store tx.old.conn.now tx.new.conn.now result
        (λ s. with_batches (with_batch batch.now s.batches) s) }
{
    let rows = batch.rows.as_slice();
    if rows.len() > MOST_ROWS as usize {
        return Err(Error::SqliteFailure(ErrorCode::TooBig));
    }
    let text = write_policy(alloc, rows)?;
    // Removed and inserted, not updated: the key is SQLite's own number, and nothing refers to it.
    run(
        tx,
        "DELETE FROM batches WHERE number = ?1",
        params![batch.number],
    )?;
    run(
        tx,
        "INSERT INTO batches VALUES (?1, ?2)",
        params![batch.number, text.as_str()],
    )?;
    Ok(())
}

/// The text of the batch of a number.
pub fn batch_on<S: Alter>(
    conn: &mut Connection<S>,
    number: u32,
) -> Result<Option<KeptText>, StoreFault>
    requires { conn.old.in_transaction ≡ false }
    ensures mode { conn.new.in_transaction ≡ false }
    ensures looks { Looks S.Store conn.old conn.new result }
    ensures found { Finds S.Store conn.old conn.new result (λ s v. v ≡ kept_text s.batches number) }
{
    let rows = read(
        conn,
        "SELECT rows FROM batches WHERE number = ?1 ORDER BY number",
        params![number],
    )?;
    match rows.as_slice().get(0) {
        Some(row) => Ok(Some(text_in(row, 0)?)),
        None => Ok(None),
    }
}

fn kept<R: Drop>(alloc: Global, list: Vec<R>) -> Result<Rows<R>, AllocError>
    ensures { IfOk result (λ v. v ≡ list.items) }
{
    let mut rows = Rows::new(alloc);
    for row in list {
        rows.push(row)?;
    }
    Ok(rows)
}

/// The rows that a text has.
pub fn rows_in(alloc: Global, text: &KeptText) -> Result<Rows<Row>, StoreFault>
    ensures { (rows : List TheRow) → policy_of text.now ≡ Ok rows → IfOk result (λ v. v ≡ rows) }
{
    match read_policy(alloc, text.as_str()) {
        Ok(rows) => {
            let rows = kept(alloc, rows)?;
            Ok(rows)
        }
        Err(ImportFault::NoMemory) => Err(StoreFault::NoMemory),
        Err(ImportFault::Row { .. }) => Err(unreadable()),
    }
}

/// The rows of the batch of a number, read back from its text.
pub fn batch_rows_on<S: Alter>(
    alloc: Global,
    conn: &mut Connection<S>,
    number: u32,
) -> Result<Option<Rows<Row>>, StoreFault>
    requires { conn.old.in_transaction ≡ false }
    ensures mode { conn.new.in_transaction ≡ false }
    ensures looks { Looks S.Store conn.old conn.new result }
    ensures found { Finds S.Store conn.old conn.new result (λ s v. v ≡ batch_rows s.batches number) }
{
    match batch_on(conn, number)? {
        Some(text) => {
            let rows = rows_in(alloc, &text)?;
            Ok(Some(rows))
        }
        None => Ok(None),
    }
}
