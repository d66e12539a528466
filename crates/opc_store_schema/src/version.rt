//! The version of the tables.
ghost use Rattle.std.specs.Prelude.{◌≡◌, ◌⊎◌, false, [], IfOk, IfErr};
ghost use Rattle.sqlite.specs.Held.{state};
ghost use Rattle.sqlite.specs.State.{HasCleanDisk, FailsToQuery};
ghost use Rattle.sqlite.specs.declared.error.Error.TheVariants.{SqliteFailure};
ghost use Rattle.sqlite.specs.declared.error.ErrorCode.TheVariants.{OutOfMemory};
ghost use Rattle.opc_store_sql.specs.Steps.{Looks};
ghost use Rattle.opc_store_schema.specs.Asked.{Finds};
ghost use Rattle.opc_store_schema.specs.Ours.{NamesVersion, version_of, version_query};

use opc_store_sql::read;
use sqlite::{Alter, Connection, Error, ErrorCode, Row};

/// The version of the tables that this program makes.
pub const VERSION: u32 = 3;

/// The version that the one row of meta names, or 0: then the tables are another program's (E92), as they are if meta
/// cannot be queried. Only the answer counts, not what meta is made of.
pub fn version_on<S: Alter>(conn: &mut Connection<S>) -> Result<u64, Error>
    requires { conn.old.in_transaction ≡ false }
    ensures mode { conn.new.in_transaction ≡ false }
    ensures looks { Looks S.Store conn.old conn.new result }
    ensures names { HasCleanDisk (state S.Store conn.new)
        → IfOk result (λ v. NamesVersion v (state S.Store conn.old) (state S.Store conn.new)) }
    ensures unasked { HasCleanDisk (state S.Store conn.new)
        → IfErr result (λ e. (e ≡ SqliteFailure OutOfMemory)
        ⊎ FailsToQuery version_query [] (state S.Store conn.old) (state S.Store conn.new) e) }
    ensures ours { Finds S.Store conn.old conn.new result (λ s v. v ≡ VERSION) }
{
    let rows = read(conn, "SELECT version FROM meta ORDER BY version", &[])?;
    version_in(rows.as_slice())
}

fn version_in(rows: &[Row]) -> Result<u64, Error>
    ensures version { IfOk result (λ v. v ≡ version_of rows.now) }
    ensures memory { IfErr result (λ e. e ≡ SqliteFailure OutOfMemory) }
{
    if rows.len() != 1 {
        return Ok(0);
    }
    match rows[0].get::<u64>(0) {
        Ok(version) => Ok(version),
        Err(Error::SqliteFailure(ErrorCode::OutOfMemory)) => {
            Err(Error::SqliteFailure(ErrorCode::OutOfMemory))
        }
        Err(_) => Ok(0),
    }
}
