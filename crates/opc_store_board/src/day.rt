//! The table of the day, which may be halted.
ghost use Rattle.std.specs.Prelude.{◌≡◌, ◌∷◌, [], false, Bool, IfOk};
ghost use Rattle.opc_store_sql.specs.Steps.{Stays, Looks};
ghost use Rattle.opc_state.specs.Changes.{with_halted};
ghost use Rattle.opc_store_schema.specs.Asked.{Finds, Makes};
ghost use Rattle.opc_store_schema.specs.Represented.{halted_row};

use opc_store_schema::columns::value_in;
use opc_store_schema::faults::unreadable;
use opc_store_schema::queries::read;
use opc_store_sql::run;
use opc_terms::store_fault::StoreFault;
use sqlite::{Alter, Connection, Error, Row, Transaction, params};

/// Sets whether the day is halted.
pub fn set_halted<S: Alter>(tx: &mut Transaction<'_, S>, halted: bool) -> Result<(), Error>
    ensures same_reference { tx.new.conn.ghost_name ≡ tx.old.conn.ghost_name }
    ensures stays { Stays S.Store tx.old.conn.now tx.new.conn.now result }
    ensures done { Makes S.Store tx.old.conn.now tx.new.conn.now result (with_halted halted) }
{
    run(tx, "UPDATE board SET halted = ?1", params![halted])?;
    Ok(())
}

/// Whether the day is halted.
pub fn halted_on<S: Alter>(conn: &mut Connection<S>) -> Result<bool, StoreFault>
    requires { conn.old.in_transaction ≡ false }
    ensures mode { conn.new.in_transaction ≡ false }
    ensures looks { Looks S.Store conn.old conn.new result }
    ensures found { Finds S.Store conn.old conn.new result (λ s v. v ≡ s.board.halted) }
{
    let rows = read(conn, "SELECT halted FROM board ORDER BY halted", &[])?;
    halted_in(rows.as_slice())
}

fn halted_in(rows: &[Row]) -> Result<bool, StoreFault>
    ensures { (halted : Bool) → rows.now ≡ halted_row halted ∷ [] → IfOk result (λ v. v ≡ halted) }
{
    match rows.get(0) {
        Some(row) => value_in(row, 0),
        None => Err(unreadable()),
    }
}
