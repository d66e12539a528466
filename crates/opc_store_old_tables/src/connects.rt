//! The connects of older tables.
ghost use Rattle.std.specs.Prelude.{◌≡◌, List, false, map, IfOk};
ghost use Rattle.opc_policy_members.specs.declared.connect.Connect.{Connect as TheConnect};
ghost use Rattle.opc_store_sql.specs.Steps.{Looks};
ghost use Rattle.opc_store_schema.specs.Represented.{connect_row};
ghost use Rattle.opc_store_old_tables.specs.Read.{FindsOld, connect_puts};

use opc_state::change::Edit;
use opc_store_schema::queries::read;
use opc_store_users::connects::connect_in;
use opc_terms::store_fault::StoreFault;
use sqlite::{Alter, Connection, Row};
use std::alloc::Global;

fn connects_in(alloc: Global, rows: &[Row]) -> Result<Vec<Edit>, StoreFault>
    ensures { (connects : List TheConnect) → rows.now ≡ map connect_row connects
        → IfOk result (λ v. v.items ≡ connect_puts connects) }
{
    let mut puts = Vec::new(alloc);
    for row in rows {
        puts.push(Edit::PutConnect(connect_in(row)?))?;
    }
    Ok(puts)
}

/// Upserts of the connects, in order.
pub fn connects_on<S: Alter>(conn: &mut Connection<S>) -> Result<Vec<Edit>, StoreFault>
    requires { conn.old.in_transaction ≡ false }
    ensures mode { conn.new.in_transaction ≡ false }
    ensures looks { Looks S.Store conn.old conn.new result }
    ensures found { FindsOld S.Store conn.old conn.new result (λ s v. v.items ≡ connect_puts s.policy.connects) }
{
    let rows = read(conn, "SELECT usr, grp FROM connects ORDER BY usr, grp", &[])?;
    connects_in(*rows.allocator(), rows.as_slice())
}
