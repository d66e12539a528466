//! Upserts of what was read.
ghost use Rattle.std.specs.Prelude.{◌≡◌};
ghost use Rattle.opc_store_sql.specs.Steps.{Stays};
ghost use Rattle.opc_store_schema.specs.Asked.{Makes};
ghost use Rattle.opc_store_migration.specs.Between.{put_into};

use opc_store_commit::commit::apply_all;
use opc_store_old_tables::edits::MigrationEdits;
use sqlite::{Alter, Error, Transaction};
use std::alloc::Global;

/// The upserts of each part, one part after another.
pub fn put_all<S: Alter>(
    alloc: Global,
    tx: &mut Transaction<'_, S>,
    puts: &MigrationEdits,
) -> Result<(), Error>
    ensures same_reference { tx.new.conn.ghost_name ≡ tx.old.conn.ghost_name }
    ensures stays { Stays S.Store tx.old.conn.now tx.new.conn.now result }
    ensures done { Makes S.Store tx.old.conn.now tx.new.conn.now result (put_into puts.now) }
{
    apply_all(alloc, tx, puts.users.as_slice())?;
    apply_all(alloc, tx, puts.connects.as_slice())?;
    apply_all(alloc, tx, puts.profiles.as_slice())?;
    apply_all(alloc, tx, puts.batches.as_slice())
}
