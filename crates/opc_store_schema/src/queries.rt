//! Queries, which return the fault of the store.
ghost use Rattle.std.specs.Prelude.{◌≡◌, false, Bool, List, filter, IfOk};
ghost use Rattle.std.specs.List.{find};
ghost use Rattle.sqlite.specs.Held.{state};
ghost use Rattle.sqlite.specs.State.{HasCleanDisk};
ghost use Rattle.opc_store_sql.specs.Steps.{Looks, Reads, NeverWrites};
ghost use Rattle.sqlite.specs.Values.{bound};
ghost use Rattle.opc_store_schema.specs.Asked.{Determines};

use crate::columns::{TableRow, decode_all};
use crate::faults::fault;
use opc_rows::Rows;
use opc_terms::store_fault::StoreFault;
use sqlite::types::ValueRef;
use sqlite::{Alter, Connection, Row};
use std::alloc::Global;

/// The rows of a query, outside any transaction, as `opc_store_sql::read` gives them. A failure is the store's.
pub fn read<S: Alter>(
    conn: &mut Connection<S>,
    sql: &str,
    params: &[ValueRef<'_>],
) -> Result<Vec<Row>, StoreFault>
    requires quiet { NeverWrites sql.now }
    requires mode { conn.old.in_transaction ≡ false }
    ensures mode { conn.new.in_transaction ≡ false }
    ensures looks { Looks S.Store conn.old conn.new result }
    ensures shown { Reads S.Store sql.now (bound params.now) conn.old conn.new result }
{
    match opc_store_sql::read(conn, sql, params) {
        Ok(rows) => Ok(rows),
        Err(error) => Err(fault(error)),
    }
}

/// The members whose rows a query gives, in its order.
pub fn members_on<S: Alter, M: Drop, T: TableRow<M>>(
    alloc: Global,
    conn: &mut Connection<S>,
    sql: &str,
    params: &[ValueRef<'_>],
) -> Result<Rows<M>, StoreFault>
    requires quiet { NeverWrites sql.now }
    requires mode { conn.old.in_transaction ≡ false }
    ensures mode { conn.new.in_transaction ≡ false }
    ensures looks { Looks S.Store conn.old conn.new result }
    ensures found { HasCleanDisk (state S.Store conn.new) → (xs : List M)
        → Determines S.Store T.row_of sql.now (bound params.now) conn.old conn.new xs → IfOk result (λ v. v ≡ xs) }
{
    let rows = read(conn, sql, params)?;
    decode_all::<_, T>(alloc, rows.as_slice())
}

/// The first member whose row a query gives, if it gives one: of all members, the first that its test selects. The
/// query should be in the order of the key, even for one row, so that what it gives is determined.
pub fn member_on<S: Alter, M: Drop, T: TableRow<M>>(
    conn: &mut Connection<S>,
    sql: &str,
    params: &[ValueRef<'_>],
) -> Result<Option<M>, StoreFault>
    requires quiet { NeverWrites sql.now }
    requires mode { conn.old.in_transaction ≡ false }
    ensures mode { conn.new.in_transaction ≡ false }
    ensures looks { Looks S.Store conn.old conn.new result }
    ensures found { HasCleanDisk (state S.Store conn.new) → (picks : M → Bool) → (xs : List M)
        → Determines S.Store T.row_of sql.now (bound params.now) conn.old conn.new (filter picks xs)
        → IfOk result (λ v. v ≡ find picks xs) }
{
    let rows = read(conn, sql, params)?;
    match rows.as_slice().get(0) {
        Some(row) => Ok(Some(T::decode(row)?)),
        None => Ok(None),
    }
}
