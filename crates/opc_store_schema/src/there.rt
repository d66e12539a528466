//! Whether there is a row.
ghost use Rattle.std.specs.Prelude.{◌≡◌, ◌==◌, false, not, length, Bool, List, IfOk};
ghost use Rattle.sqlite.specs.Held.{state};
ghost use Rattle.sqlite.specs.Order.{Row};
ghost use Rattle.sqlite.specs.State.{HasCleanDisk, Shown};
ghost use Rattle.sqlite.specs.Values.{bound};
ghost use Rattle.opc_store_sql.specs.Steps.{Looks, NeverWrites};

use crate::queries::read;
use opc_terms::store_fault::StoreFault;
use sqlite::types::ValueRef;
use sqlite::{Alter, Connection};

/// Whether a query gives a row. It should have LIMIT 1, so that no more than that row is read, and needs no order:
/// `returned_any` of opc_store_sql proves for all tables that LIMIT 1 gives a row if and only if a row passes the test.
pub fn is_there_on<S: Alter>(
    conn: &mut Connection<S>,
    sql: &str,
    params: &[ValueRef<'_>],
) -> Result<bool, StoreFault>
    requires quiet { NeverWrites sql.now }
    requires mode { conn.old.in_transaction ≡ false }
    ensures mode { conn.new.in_transaction ≡ false }
    ensures looks { Looks S.Store conn.old conn.new result }
    ensures found { HasCleanDisk (state S.Store conn.new) → (there : Bool)
        → ((rows : List Row) → Shown sql.now (bound params.now) (state S.Store conn.old) (state S.Store conn.new) rows
        → not (length rows == 0) ≡ there) → IfOk result (λ v. v ≡ there) }
{
    let rows = read(conn, sql, params)?;
    Ok(!rows.as_slice().is_empty())
}
