//! The table of classes.
ghost use Rattle.std.specs.Prelude.{◌≡◌, false, [], ◌∷◌, Bool, IfOk};
ghost use Rattle.opc_store_sql.specs.Steps.{Stays, Looks};
ghost use Rattle.opc_policy_members.specs.Taken.{with_active, is_active};
ghost use Rattle.opc_store_schema.specs.Asked.{Finds, Makes};
ghost use Rattle.opc_names.specs.declared.class.Class.{Class as TheClass};
ghost use Rattle.opc_store_schema.specs.Represented.{class_row};

use opc_names::class::Class;
use opc_policy_members::policy::ActiveClasses;
use opc_store_schema::columns::value_in;
use opc_store_schema::faults::unreadable;
use opc_store_schema::queries::read;
use opc_store_sql::run;
use opc_terms::store_fault::StoreFault;
use sqlite::{Alter, Connection, Error, Row, Transaction, params};

/// Sets whether a class is active.
pub fn set_active<S: Alter>(
    tx: &mut Transaction<'_, S>,
    class: Class,
    active: bool,
) -> Result<(), Error>
    ensures same_reference { tx.new.conn.ghost_name ≡ tx.old.conn.ghost_name }
    ensures stays { Stays S.Store tx.old.conn.now tx.new.conn.now result }
    ensures done { Makes S.Store tx.old.conn.now tx.new.conn.now result
        (λ s. record s { policy = record s.policy { active = with_active class active s.policy.active } }) }
{
    run(
        tx,
        "UPDATE classes SET class = ?1, active = ?2 WHERE class = ?1",
        params![class.text(), active],
    )?;
    Ok(())
}

/// Whether a class is active.
pub fn active_on<S: Alter>(conn: &mut Connection<S>, class: Class) -> Result<bool, StoreFault>
    requires { conn.old.in_transaction ≡ false }
    ensures mode { conn.new.in_transaction ≡ false }
    ensures looks { Looks S.Store conn.old conn.new result }
    ensures found { Finds S.Store conn.old conn.new result (λ s v. v ≡ is_active s.policy.active class) }
{
    let rows = read(
        conn,
        "SELECT class, active FROM classes WHERE class = ?1 ORDER BY class",
        params![class.text()],
    )?;
    active_in(rows.as_slice())
}

fn active_in(rows: &[Row]) -> Result<bool, StoreFault>
    ensures { (class : TheClass) → (active : Bool) → rows.now ≡ class_row (class, active) ∷ []
        → IfOk result (λ v. v ≡ active) }
{
    match rows.get(0) {
        Some(row) => value_in(row, 1),
        None => Err(unreadable()),
    }
}

/// Which classes are active.
pub fn actives_on<S: Alter>(conn: &mut Connection<S>) -> Result<ActiveClasses, StoreFault>
    requires { conn.old.in_transaction ≡ false }
    ensures mode { conn.new.in_transaction ≡ false }
    ensures looks { Looks S.Store conn.old conn.new result }
    ensures found { Finds S.Store conn.old conn.new result (λ s v. v ≡ s.policy.active) }
{
    let console = active_on(conn, Class::Console)?;
    let opercmds = active_on(conn, Class::Opercmds)?;
    Ok(ActiveClasses { console, opercmds })
}
