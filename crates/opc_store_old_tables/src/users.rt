//! The users of older tables, of whom nobody is RESTRICTED.
ghost use Rattle.std.specs.Prelude.{◌≡◌, List, false, map, IfOk};
ghost use Rattle.opc_policy_members.specs.declared.user.User.{User as TheUser};
ghost use Rattle.opc_store_sql.specs.Steps.{Looks};
ghost use Rattle.opc_store_schema.specs.Represented.{user_row};
ghost use Rattle.opc_store_old_tables.specs.Read.{FindsOld, user_puts};

use opc_state::change::Edit;
use opc_store_schema::queries::read;
use opc_store_users::users::user_in;
use opc_terms::store_fault::StoreFault;
use sqlite::{Alter, Connection, Row};
use std::alloc::Global;

fn users_in(alloc: Global, rows: &[Row]) -> Result<Vec<Edit>, StoreFault>
    ensures { (users : List TheUser) → rows.now ≡ map user_row users → IfOk result (λ v. v.items ≡ user_puts users) }
{
    let mut puts = Vec::new(alloc);
    for row in rows {
        puts.push(Edit::PutUser(user_in(row)?))?;
    }
    Ok(puts)
}

/// Upserts of the users, in order.
pub fn users_on<S: Alter>(conn: &mut Connection<S>) -> Result<Vec<Edit>, StoreFault>
    requires { conn.old.in_transaction ≡ false }
    ensures mode { conn.new.in_transaction ≡ false }
    ensures looks { Looks S.Store conn.old conn.new result }
    ensures found { FindsOld S.Store conn.old conn.new result (λ s v. v.items ≡ user_puts s.policy.users) }
{
    let rows = read(
        conn,
        "SELECT id, special, auditor, revoked, digest, 0 FROM usr ORDER BY id",
        &[],
    )?;
    users_in(*rows.allocator(), rows.as_slice())
}
