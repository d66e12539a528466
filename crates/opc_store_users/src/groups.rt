//! The table of groups.
ghost use Rattle.std.specs.Prelude.{◌≡◌, false};
ghost use Rattle.opc_store_sql.specs.Steps.{Stays, Looks};
ghost use Rattle.opc_policy_members.specs.Members.{with_group};
ghost use Rattle.opc_policy_members.specs.Taken.{has_group};
ghost use Rattle.opc_store_schema.specs.Asked.{Finds, Makes};
ghost use Rattle.opc_state.specs.Changes.{with_groups};
ghost use Rattle.opc_state.specs.Members.{without_group};
ghost use Rattle.opc_store_schema.specs.Represented.{group_row};

use opc_names::name::GroupName;
use opc_rows::Rows;
use opc_store_schema::columns::{TableRow, name_in};
use opc_store_schema::queries::members_on;
use opc_store_schema::there::is_there_on;
use opc_store_sql::{put, run};
use opc_terms::store_fault::StoreFault;
use sqlite::{Alter, Connection, Error, Row, Transaction, params};
use std::alloc::Global;

/// The table of groups.
pub struct GroupTable;

impl TableRow<GroupName> for GroupTable {
    ghost row_of = { group_row };

    fn decode(row: &Row) -> Result<GroupName, StoreFault> {
        name_in(row, 0)
    }
}

/// Puts a group.
pub fn put_group<S: Alter>(tx: &mut Transaction<'_, S>, name: &GroupName) -> Result<(), Error>
    ensures same_reference { tx.new.conn.ghost_name ≡ tx.old.conn.ghost_name }
    ensures stays { Stays S.Store tx.old.conn.now tx.new.conn.now result }
    ensures done { Makes S.Store tx.old.conn.now tx.new.conn.now result
        (λ s. with_groups (with_group name.now s.policy.groups) s) }
{
    put(
        tx,
        "UPDATE grp SET name = ?1 WHERE name = ?1",
        "INSERT INTO grp VALUES (?1)",
        params![name.text()],
    )
}

/// Removes a group.
pub fn remove_group<S: Alter>(tx: &mut Transaction<'_, S>, name: &GroupName) -> Result<(), Error>
    ensures same_reference { tx.new.conn.ghost_name ≡ tx.old.conn.ghost_name }
    ensures stays { Stays S.Store tx.old.conn.now tx.new.conn.now result }
    ensures done { Makes S.Store tx.old.conn.now tx.new.conn.now result
        (λ s. with_groups (without_group name.now s.policy.groups) s) }
{
    run(tx, "DELETE FROM grp WHERE name = ?1", params![name.text()])?;
    Ok(())
}

/// Whether a group has this name.
pub fn has_group_on<S: Alter>(conn: &mut Connection<S>, name: &str) -> Result<bool, StoreFault>
    requires { conn.old.in_transaction ≡ false }
    ensures mode { conn.new.in_transaction ≡ false }
    ensures looks { Looks S.Store conn.old conn.new result }
    ensures found { Finds S.Store conn.old conn.new result (λ s v. v ≡ has_group s.policy name.now) }
{
    is_there_on(
        conn,
        "SELECT name FROM grp WHERE name = ?1 LIMIT 1",
        params![name],
    )
}

/// The groups, in order.
pub fn groups_on<S: Alter>(
    alloc: Global,
    conn: &mut Connection<S>,
) -> Result<Rows<GroupName>, StoreFault>
    requires { conn.old.in_transaction ≡ false }
    ensures mode { conn.new.in_transaction ≡ false }
    ensures looks { Looks S.Store conn.old conn.new result }
    ensures found { Finds S.Store conn.old conn.new result (λ s v. v ≡ s.policy.groups) }
{
    members_on::<_, _, GroupTable>(alloc, conn, "SELECT name FROM grp ORDER BY name", &[])
}
