//! What SQL statements do to tables: general lemmas, and the calls to which they apply.
#![tactic(auto)]

pub mod numbers;

ghost use Rattle.std.specs.Prelude.{◌≡◌, false, map, IfOk, IfErr, OnOk};
ghost use Rattle.sqlite.specs.Held.{state};
ghost use Rattle.sqlite.specs.Values.{bound};
ghost use Rattle.sqlite.specs.State.{HasCleanDisk, FailsToQuery};
ghost use Rattle.opc_store_sql.specs.Steps.{Stays, Ran, RanAll, Puts, Looks, Reads, NeverWrites};

use sqlite::types::ValueRef;
use sqlite::{Alter, Connection, Error, Row, Transaction};

/// Runs one statement of a transaction and returns how many rows it changed.
pub fn run<S: Alter>(
    tx: &mut Transaction<'_, S>,
    sql: &str,
    params: &[ValueRef<'_>],
) -> Result<usize, Error>
    ensures same_reference { tx.new.conn.ghost_name ≡ tx.old.conn.ghost_name }
    ensures stays { Stays S.Store tx.old.conn.now tx.new.conn.now result }
    ensures ran { HasCleanDisk (state S.Store tx.new.conn.now)
        → IfOk result (Ran S.Store sql.now (bound params.now) tx.old.conn.now tx.new.conn.now) }
{
    tx.execute(sql, params)
}

/// Runs statements without parameters, one after another.
pub fn run_all<S: Alter>(tx: &mut Transaction<'_, S>, statements: &[&str]) -> Result<(), Error>
    ensures same_reference { tx.new.conn.ghost_name ≡ tx.old.conn.ghost_name }
    ensures stays { Stays S.Store tx.old.conn.now tx.new.conn.now result }
    ensures ran { HasCleanDisk (state S.Store tx.new.conn.now)
        → OnOk result (RanAll S.Store (map (λ s. s.now) statements.now) tx.old.conn.now tx.new.conn.now) }
{
    for statement in statements {
        run(tx, statement, &[])?;
    }
    Ok(())
}

/// Upserts a row at its key: `update` sets it if it is there, and `insert` adds it if it is not. Both take all of
/// `params`. What a keyed table's statements do to its rows is proved once, in proofs/Keyed.antt.
pub fn put<S: Alter>(
    tx: &mut Transaction<'_, S>,
    update: &str,
    insert: &str,
    params: &[ValueRef<'_>],
) -> Result<(), Error>
    ensures same_reference { tx.new.conn.ghost_name ≡ tx.old.conn.ghost_name }
    ensures stays { Stays S.Store tx.old.conn.now tx.new.conn.now result }
    ensures put { HasCleanDisk (state S.Store tx.new.conn.now)
        → OnOk result (Puts S.Store update.now insert.now (bound params.now) tx.old.conn.now tx.new.conn.now) }
{
    let found = run(tx, update, params)?;
    if found == 0 {
        run(tx, insert, params)?;
    }
    Ok(())
}

/// The rows of a query, outside any transaction. A query changes nothing, not even what a crash may leave.
pub fn read<S: Alter>(
    conn: &mut Connection<S>,
    sql: &str,
    params: &[ValueRef<'_>],
) -> Result<Vec<Row>, Error>
    requires quiet { NeverWrites sql.now }
    requires mode { conn.old.in_transaction ≡ false }
    ensures mode { conn.new.in_transaction ≡ false }
    ensures looks { Looks S.Store conn.old conn.new result }
    ensures shown { Reads S.Store sql.now (bound params.now) conn.old conn.new result }
    ensures failed { HasCleanDisk (state S.Store conn.new)
        → IfErr result (FailsToQuery sql.now (bound params.now) (state S.Store conn.old) (state S.Store conn.new)) }
{
    // For the prover alone: this call's clause states that outside a transaction all that is stored is committed.
    let _settled = conn.is_autocommit();
    conn.query_all(sql, params)
}
