//! What the lasting tables record of their version.
ghost use Rattle.std.specs.Prelude.{◌≡◌, ℕ, List, OnOk};
ghost use Rattle.sqlite.specs.Held.{state};
ghost use Rattle.sqlite.specs.State.{HasCleanDisk};
ghost use Rattle.opc_state.specs.State.{State as TheState};
ghost use Rattle.opc_state.specs.declared.change.Batch.{Batch as TheBatch};
ghost use Rattle.opc_store_sql.specs.Steps.{Stays};
ghost use Rattle.opc_store_schema.specs.Made.{IsMade};
ghost use Rattle.opc_store_schema.specs.Represented.{Represents};
ghost use Rattle.opc_store_old_tables.specs.Old.{IsOldState};
ghost use Rattle.opc_store_migration.specs.Between.{between, emptied};

use opc_store_schema::version::VERSION;
use opc_store_sql::run;
use sqlite::{Alter, Error, Transaction, params};

/// The version is that of these tables, and no batch is stored.
pub fn set_version<S: Alter>(tx: &mut Transaction<'_, S>) -> Result<(), Error>
    ensures same_reference { tx.new.conn.ghost_name ≡ tx.old.conn.ghost_name }
    ensures stays { Stays S.Store tx.old.conn.now tx.new.conn.now result }
    ensures renewed { HasCleanDisk (state S.Store tx.new.conn.now)
        → OnOk result ((version : _) → (text_of : TheBatch → List ℕ) → (s : TheState) → IsOldState text_of s
        → IsMade (between version text_of s) (state S.Store tx.old.conn.now).now
        → Represents (state S.Store tx.new.conn.now).now (emptied s)) }
{
    run(tx, "DELETE FROM meta", &[])?;
    run(tx, "INSERT INTO meta VALUES (?1)", params![VERSION])?;
    run(tx, "DELETE FROM batches", &[])?;
    Ok(())
}
