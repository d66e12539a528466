//! The migration as a whole.
ghost use Rattle.std.specs.Prelude.{◌≡◌, false, OnOk};
ghost use Rattle.sqlite.specs.Held.{state};
ghost use Rattle.sqlite.specs.State.{HasCleanDisk, Survives};
ghost use Rattle.opc_store_schema.specs.Ending.{IsUndone, IsCommitted};
ghost use Rattle.opc_store_schema.specs.Represented.{AreTablesOf, Represents};
ghost use Rattle.opc_store_old_tables.specs.Old.{RepresentsOld};
ghost use Rattle.opc_store_old_tables.specs.MigrationEdits.{AreMigrationEditsOf};

use crate::put::put_all;
use crate::recreate_tables::recreate_tables;
use crate::set_version::set_version;
use opc_store_old_tables::edits::{MigrationEdits, migration_edits_on};
use opc_store_schema::faults::fault;
use opc_terms::store_fault::StoreFault;
use sqlite::{Alter, Connection, Error};

// One transaction: the tables of this version with all that was read, or nothing.
fn transact<S: Alter>(conn: &mut Connection<S>, puts: &MigrationEdits) -> Result<(), Error>
    requires { conn.old.in_transaction ≡ false }
    ensures mode { conn.new.in_transaction ≡ false }
    ensures done { HasCleanDisk (state S.Store conn.new)
        → OnOk result ((version : _) → (s : _) → RepresentsOld version (state S.Store conn.old).now s
        → AreMigrationEditsOf s puts.now → Represents (state S.Store conn.new).now s) }
    ensures failed { IsUndone S.Store conn.old conn.new result }
    ensures settled { IsCommitted S.Store conn.new result }
    ensures survives { Survives (state S.Store conn.old) (state S.Store conn.new)
        (λ db. (version : _) → (s : _) → RepresentsOld version (state S.Store conn.old).now s
        → AreMigrationEditsOf s puts.now → AreTablesOf db s) }
{
    // For the prover alone: this call's clause states that outside a transaction all that is stored is committed.
    let _settled = conn.is_autocommit();
    let mut tx = conn.transaction();
    recreate_tables(&mut tx)?;
    set_version(&mut tx)?;
    put_all(*puts.users.allocator(), &mut tx, puts)?;
    tx.commit()
}

/// Turns tables of version 1 or 2 into those of version 3, of the same state. If it fails, they are as they were, and a
/// crash leaves the old tables or the new ones, whole. The policy and the stored batches are read into memory, since
/// the kit has no ALTER TABLE, and `INSERT .. SELECT` could not compute sort keys and heads; the account and the
/// histories stay where they are.
pub fn migrate_on<S: Alter>(conn: &mut Connection<S>) -> Result<(), StoreFault>
    requires { conn.old.in_transaction ≡ false }
    ensures mode { conn.new.in_transaction ≡ false }
    ensures done { HasCleanDisk (state S.Store conn.new)
        → OnOk result ((version : _) → (s : _) → RepresentsOld version (state S.Store conn.old).now s
        → Represents (state S.Store conn.new).now s) }
    ensures failed { IsUndone S.Store conn.old conn.new result }
    ensures settled { IsCommitted S.Store conn.new result }
    ensures survives { Survives (state S.Store conn.old) (state S.Store conn.new)
        (λ db. (version : _) → (s : _) → RepresentsOld version (state S.Store conn.old).now s → AreTablesOf db s) }
{
    let puts = migration_edits_on(conn)?;
    match transact(conn, &puts) {
        Ok(()) => Ok(()),
        Err(error) => Err(fault(error)),
    }
}
