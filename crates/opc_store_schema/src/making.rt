//! Making the tables.
ghost use Rattle.std.specs.Prelude.{◌≡◌, List, ◌++◌, OnOk, OnErr, IsTrue, false};
ghost use Rattle.sqlite.specs.Held.{state};
ghost use Rattle.sqlite.specs.State.{HasCleanDisk, Survives};
ghost use Rattle.sqlite.specs.Order.{Row as TheRow};
ghost use Rattle.opc_store_sql.specs.Rows.{HasTables};
ghost use Rattle.opc_store_sql.specs.Shapes.{no_schema};
ghost use Rattle.opc_store_sql.specs.Steps.{RanAll, Stays};
ghost use Rattle.opc_store_schema.specs.Made.{IsMade, nothing, no_last_rows};
ghost use Rattle.opc_store_schema.specs.Making.{lasting, last, indexes, first_rows, RanEach, AreMadeOver};
ghost use Rattle.opc_store_schema.specs.Tables.{lasting_schema, the_schema};
ghost use Rattle.opc_state.specs.State.{empty};
ghost use Rattle.opc_store_schema.specs.Ending.{IsCommitted};
ghost use Rattle.opc_store_schema.specs.Represented.{Represents, AreTablesOf};

use crate::version::VERSION;
use opc_store_sql::{run, run_all};
use sqlite::{Alter, Connection, Error, Transaction, params};

/// The statements that make the tables that are the same in all versions.
const LASTING_TABLES: [&str; 13] = [
    "CREATE TABLE meta (version INTEGER NOT NULL) STRICT",
    "CREATE TABLE classes (class TEXT NOT NULL PRIMARY KEY, active INTEGER NOT NULL) STRICT",
    "CREATE TABLE consoles (name TEXT NOT NULL PRIMARY KEY, auth INTEGER NOT NULL, mode TEXT NOT NULL, online INTEGER NOT NULL, usr TEXT, monitor INTEGER NOT NULL) STRICT",
    "CREATE TABLE units (name TEXT NOT NULL PRIMARY KEY, kind TEXT NOT NULL, member TEXT, cancelable INTEGER NOT NULL, stopping INTEGER NOT NULL, last TEXT) STRICT",
    "CREATE TABLE devices (number TEXT NOT NULL PRIMARY KEY, online INTEGER NOT NULL, volume TEXT, unit TEXT) STRICT",
    "CREATE TABLE replies (id INTEGER PRIMARY KEY, text TEXT NOT NULL) STRICT",
    "CREATE TABLE answered (number INTEGER PRIMARY KEY, id INTEGER NOT NULL, text TEXT NOT NULL) STRICT",
    "CREATE TABLE log (number INTEGER PRIMARY KEY, text TEXT NOT NULL) STRICT",
    "CREATE TABLE messages (number INTEGER PRIMARY KEY, usr TEXT NOT NULL, text TEXT NOT NULL) STRICT",
    "CREATE TABLE board (halted INTEGER NOT NULL) STRICT",
    "CREATE TABLE account (number INTEGER PRIMARY KEY, moment INTEGER NOT NULL, console TEXT NOT NULL, usr TEXT NOT NULL, code TEXT NOT NULL, rule TEXT NOT NULL) STRICT",
    "CREATE TABLE batches (number INTEGER PRIMARY KEY, rows TEXT NOT NULL) STRICT",
    "CREATE TABLE grp (name TEXT NOT NULL PRIMARY KEY) STRICT",
];

/// The tables that differ between the versions, with the one that refers to them: each after those that it refers to.
const LAST_TABLES: [&str; 4] = [
    "CREATE TABLE usr (id TEXT NOT NULL PRIMARY KEY, special INTEGER NOT NULL, auditor INTEGER NOT NULL, revoked INTEGER NOT NULL, digest BLOB, restricted INTEGER NOT NULL) STRICT",
    "CREATE TABLE connects (usr TEXT NOT NULL REFERENCES usr, grp TEXT NOT NULL REFERENCES grp, PRIMARY KEY (usr, grp)) STRICT",
    "CREATE TABLE profiles (class TEXT NOT NULL, pattern TEXT NOT NULL, owner TEXT NOT NULL REFERENCES usr, uacc INTEGER NOT NULL, warning INTEGER NOT NULL, skey BLOB NOT NULL, head TEXT NOT NULL, PRIMARY KEY (class, pattern), UNIQUE (class, skey), UNIQUE (class, head, skey), UNIQUE (owner, class, pattern)) STRICT",
    "CREATE TABLE entries (class TEXT NOT NULL, pattern TEXT NOT NULL, id TEXT NOT NULL, console TEXT NOT NULL, level INTEGER NOT NULL, PRIMARY KEY (class, pattern, id, console), UNIQUE (id, class, pattern, console), FOREIGN KEY (class, pattern) REFERENCES profiles ON DELETE CASCADE) STRICT",
];

/// The indexes that no key of a table implies. By these, and by the keys `UNIQUE (owner, ..)` and `UNIQUE (id, ..)`,
/// which exist only for look-ups, an index finds whatever names a user, a user's consoles, the online masters and a
/// unit's devices. They belong to the version of the tables, whose statements are exact.
const INDEXES: [&str; 3] = [
    "CREATE INDEX consoles_by_user ON consoles (usr, name)",
    "CREATE INDEX consoles_by_authority ON consoles (auth, online, name)",
    "CREATE INDEX devices_by_unit ON devices (unit, number)",
];

/// Makes what the lasting tables lack: the last tables, without rows, and the indexes.
pub fn create_last_tables<S: Alter>(tx: &mut Transaction<'_, S>) -> Result<(), Error>
    ensures same_reference { tx.new.conn.ghost_name ≡ tx.old.conn.ghost_name }
    ensures stays { Stays S.Store tx.old.conn.now tx.new.conn.now result }
    ensures ran { HasCleanDisk (state S.Store tx.new.conn.now)
        → OnOk result (RanAll S.Store (last ++ indexes) tx.old.conn.now tx.new.conn.now) }
    ensures made { HasCleanDisk (state S.Store tx.new.conn.now)
        → OnOk result ((all : List (List TheRow)) → HasTables lasting_schema all (state S.Store tx.old.conn.now).now
        → HasTables the_schema (all ++ no_last_rows) (state S.Store tx.new.conn.now).now) }
{
    run_all(tx, &LAST_TABLES)?;
    run_all(tx, &INDEXES)
}

/// Makes the tables in a database in which nothing is defined, without rows.
pub fn create_tables<S: Alter>(tx: &mut Transaction<'_, S>) -> Result<(), Error>
    ensures same_reference { tx.new.conn.ghost_name ≡ tx.old.conn.ghost_name }
    ensures stays { Stays S.Store tx.old.conn.now tx.new.conn.now result }
    ensures ran { HasCleanDisk (state S.Store tx.new.conn.now)
        → OnOk result (RanAll S.Store (lasting ++ last ++ indexes) tx.old.conn.now tx.new.conn.now) }
    ensures made { HasCleanDisk (state S.Store tx.new.conn.now)
        → OnOk result (tx.old.conn.now.schema ≡ no_schema → IsMade nothing (state S.Store tx.new.conn.now).now) }
{
    run_all(tx, &LASTING_TABLES)?;
    create_last_tables(tx)
}

/// The rows that are always there: the version, the classes and the day.
fn fill<S: Alter>(tx: &mut Transaction<'_, S>) -> Result<(), Error>
    ensures same_reference { tx.new.conn.ghost_name ≡ tx.old.conn.ghost_name }
    ensures stays { Stays S.Store tx.old.conn.now tx.new.conn.now result }
    ensures ran { HasCleanDisk (state S.Store tx.new.conn.now)
        → OnOk result (RanEach S.Store first_rows tx.old.conn.now tx.new.conn.now) }
    ensures filled { HasCleanDisk (state S.Store tx.new.conn.now)
        → OnOk result (IsMade nothing (state S.Store tx.old.conn.now).now
        → Represents (state S.Store tx.new.conn.now).now empty) }
{
    run(tx, "INSERT INTO meta VALUES (?1)", params![VERSION])?;
    run(
        tx,
        "INSERT INTO classes VALUES (?1, ?2)",
        params!["OPERCMDS", false],
    )?;
    run(
        tx,
        "INSERT INTO classes VALUES (?1, ?2)",
        params!["CONSOLE", false],
    )?;
    run(tx, "INSERT INTO board VALUES (?1)", params![false])?;
    Ok(())
}

/// Makes the tables, beside what is there, all or none: if nothing is defined, those of an empty state.
pub fn make_tables<S: Alter>(conn: &mut Connection<S>) -> Result<(), Error>
    requires { conn.old.in_transaction ≡ false }
    ensures mode { conn.new.in_transaction ≡ false }
    ensures ran { HasCleanDisk (state S.Store conn.new)
        → OnOk result (AreMadeOver S.Store conn.old (state S.Store conn.new).now.trees) }
    ensures made { HasCleanDisk (state S.Store conn.new)
        → OnOk result (conn.old.schema ≡ no_schema → Represents (state S.Store conn.new).now empty) }
    ensures failed { HasCleanDisk (state S.Store conn.new) → IsTrue (state S.Store conn.new).is_open
        → OnErr result ((state S.Store conn.new).now ≡ (state S.Store conn.old).committed) }
    ensures settled { IsCommitted S.Store conn.new result }
    ensures survives { Survives (state S.Store conn.old) (state S.Store conn.new)
        (λ db. AreMadeOver S.Store conn.old db × (conn.old.schema ≡ no_schema → AreTablesOf db empty)) }
{
    let mut tx = conn.transaction();
    create_tables(&mut tx)?;
    fill(&mut tx)?;
    tx.commit()
}
