//! The tables of version 3 in the place of those of an older version.
ghost use Rattle.std.specs.Prelude.{◌≡◌, OnOk};
ghost use Rattle.sqlite.specs.Held.{state};
ghost use Rattle.sqlite.specs.State.{HasCleanDisk};
ghost use Rattle.opc_store_sql.specs.Rows.{HasTables};
ghost use Rattle.opc_store_sql.specs.Steps.{Stays};
ghost use Rattle.opc_store_schema.specs.Contents.{Contents as TheContents, as_list};
ghost use Rattle.opc_store_schema.specs.Made.{IsMade};
ghost use Rattle.opc_store_schema.specs.Tables.{lasting_schema};
ghost use Rattle.opc_store_old_tables.specs.Tables.{old_schema};
ghost use Rattle.opc_store_migration.specs.Between.{lasting_rows, without_last};

use opc_store_schema::making::create_last_tables;
use opc_store_sql::run_all;
use sqlite::{Alter, Error, Transaction};

/// Each table before those that it refers to.
const DROPS: [&str; 4] = [
    "DROP TABLE entries",
    "DROP TABLE profiles",
    "DROP TABLE connects",
    "DROP TABLE usr",
];

fn drop_last_tables<S: Alter>(tx: &mut Transaction<'_, S>) -> Result<(), Error>
    ensures same_reference { tx.new.conn.ghost_name ≡ tx.old.conn.ghost_name }
    ensures stays { Stays S.Store tx.old.conn.now tx.new.conn.now result }
    ensures dropped { HasCleanDisk (state S.Store tx.new.conn.now)
        → OnOk result ((version : _) → (c : TheContents)
        → HasTables (old_schema version) (as_list c) (state S.Store tx.old.conn.now).now
        → HasTables lasting_schema (lasting_rows c) (state S.Store tx.new.conn.now).now) }
{
    run_all(tx, &DROPS)
}

/// The lasting tables keep their rows, and the last have none.
pub fn recreate_tables<S: Alter>(tx: &mut Transaction<'_, S>) -> Result<(), Error>
    ensures same_reference { tx.new.conn.ghost_name ≡ tx.old.conn.ghost_name }
    ensures stays { Stays S.Store tx.old.conn.now tx.new.conn.now result }
    ensures remade { HasCleanDisk (state S.Store tx.new.conn.now)
        → OnOk result ((version : _) → (c : TheContents)
        → HasTables (old_schema version) (as_list c) (state S.Store tx.old.conn.now).now
        → IsMade (without_last c) (state S.Store tx.new.conn.now).now) }
{
    drop_last_tables(tx)?;
    create_last_tables(tx)
}
