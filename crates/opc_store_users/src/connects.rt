//! The table of connects.
ghost use Rattle.std.specs.Prelude.{◌≡◌, false, take, List, IfOk, map};
ghost use Rattle.std.specs.List.{list_any};
ghost use Rattle.std.specs.Str.{bytes_eq};
ghost use Rattle.opc_store_sql.specs.Steps.{Stays, Looks};
ghost use Rattle.opc_policy_members.specs.Members.{with_connect, groups_of};
ghost use Rattle.opc_store_schema.specs.Asked.{Finds, Makes};
ghost use Rattle.opc_state.specs.Changes.{with_connects};
ghost use Rattle.opc_state.specs.Loads.{is_connected};
ghost use Rattle.opc_state.specs.Members.{without_connect};
ghost use Rattle.opc_policy_members.specs.declared.connect.Connect.{Connect as TheConnect};
ghost use Rattle.opc_store_schema.specs.Represented.{connect_row};

use opc_names::name::{GroupName, UserId};
use opc_policy_members::connect::Connect;
use opc_rows::Rows;
use opc_store_schema::columns::{TableRow, name_in};
use opc_store_schema::queries::{members_on, read};
use opc_store_schema::there::is_there_on;
use opc_store_sql::{put, run};
use opc_terms::store_fault::StoreFault;
use sqlite::{Alter, Connection, Error, Row, Transaction, params};
use std::alloc::Global;

/// The table of connects.
pub struct ConnectTable;

impl TableRow<Connect> for ConnectTable {
    ghost row_of = { connect_row };

    fn decode(row: &Row) -> Result<Connect, StoreFault> {
        connect_in(row)
    }
}

/// Puts a connect.
pub fn put_connect<S: Alter>(tx: &mut Transaction<'_, S>, connect: &Connect) -> Result<(), Error>
    ensures same_reference { tx.new.conn.ghost_name ≡ tx.old.conn.ghost_name }
    ensures stays { Stays S.Store tx.old.conn.now tx.new.conn.now result }
    ensures done { Makes S.Store tx.old.conn.now tx.new.conn.now result
        (λ s. with_connects (with_connect connect.now s.policy.connects) s) }
{
    put(
        tx,
        "UPDATE connects SET usr = ?1, grp = ?2 WHERE usr = ?1 AND grp = ?2",
        "INSERT INTO connects VALUES (?1, ?2)",
        params![connect.user.text(), connect.group.text()],
    )
}

/// Removes a connect.
pub fn remove_connect<S: Alter>(tx: &mut Transaction<'_, S>, connect: &Connect) -> Result<(), Error>
    ensures same_reference { tx.new.conn.ghost_name ≡ tx.old.conn.ghost_name }
    ensures stays { Stays S.Store tx.old.conn.now tx.new.conn.now result }
    ensures done { Makes S.Store tx.old.conn.now tx.new.conn.now result
        (λ s. with_connects (without_connect connect.now s.policy.connects) s) }
{
    run(
        tx,
        "DELETE FROM connects WHERE usr = ?1 AND grp = ?2",
        params![connect.user.text(), connect.group.text()],
    )?;
    Ok(())
}

/// The connect that a row of the table holds.
pub fn connect_in(row: &Row) -> Result<Connect, StoreFault>
    ensures { (c : TheConnect) → row.now ≡ connect_row c → IfOk result (λ v. v ≡ c) }
{
    Ok(Connect {
        user: name_in(row, 0)?,
        group: name_in(row, 1)?,
    })
}

/// The connects, in order.
pub fn connects_on<S: Alter>(
    alloc: Global,
    conn: &mut Connection<S>,
) -> Result<Rows<Connect>, StoreFault>
    requires { conn.old.in_transaction ≡ false }
    ensures mode { conn.new.in_transaction ≡ false }
    ensures looks { Looks S.Store conn.old conn.new result }
    ensures found { Finds S.Store conn.old conn.new result (λ s v. v ≡ s.policy.connects) }
{
    members_on::<_, _, ConnectTable>(
        alloc,
        conn,
        "SELECT usr, grp FROM connects ORDER BY usr, grp",
        &[],
    )
}

fn groups_in(alloc: Global, rows: &[Row]) -> Result<Vec<GroupName>, StoreFault>
    ensures { (connects : List TheConnect) → rows.now ≡ map connect_row connects
        → IfOk result (λ v. v.items ≡ map (λ (c : TheConnect). c.group) connects) }
{
    let mut groups = Vec::new(alloc);
    for row in rows {
        groups.push(name_in(row, 1)?)?;
    }
    Ok(groups)
}

/// The groups that a user is connected to, in order, at most as many as requested.
pub fn user_groups_on<S: Alter>(
    alloc: Global,
    conn: &mut Connection<S>,
    user: &UserId,
    most: u32,
) -> Result<Vec<GroupName>, StoreFault>
    requires { conn.old.in_transaction ≡ false }
    ensures mode { conn.new.in_transaction ≡ false }
    ensures looks { Looks S.Store conn.old conn.new result }
    ensures found { Finds S.Store conn.old conn.new result
        (λ s v. v.items ≡ take most (groups_of s.policy.connects user.now)) }
{
    let rows = read(
        conn,
        "SELECT usr, grp FROM connects WHERE usr = ?1 ORDER BY usr, grp LIMIT ?2",
        params![user.text(), most],
    )?;
    groups_in(alloc, rows.as_slice())
}

/// Whether a user is connected to a group of this name.
pub fn is_connected_on<S: Alter>(
    conn: &mut Connection<S>,
    user: &UserId,
    group: &str,
) -> Result<bool, StoreFault>
    requires { conn.old.in_transaction ≡ false }
    ensures mode { conn.new.in_transaction ≡ false }
    ensures looks { Looks S.Store conn.old conn.new result }
    ensures found { Finds S.Store conn.old conn.new result (λ s v. v ≡ is_connected s.policy user.now group.now) }
{
    is_there_on(
        conn,
        "SELECT usr FROM connects WHERE usr = ?1 AND grp = ?2 LIMIT 1",
        params![user.text(), group],
    )
}

/// Whether a connect names a user.
pub fn has_connect_on<S: Alter>(conn: &mut Connection<S>, user: &UserId) -> Result<bool, StoreFault>
    requires { conn.old.in_transaction ≡ false }
    ensures mode { conn.new.in_transaction ≡ false }
    ensures looks { Looks S.Store conn.old conn.new result }
    ensures found { Finds S.Store conn.old conn.new result
        (λ s v. v ≡ list_any (λ (c : TheConnect). bytes_eq c.user user.now) s.policy.connects) }
{
    is_there_on(
        conn,
        "SELECT usr FROM connects WHERE usr = ?1 LIMIT 1",
        params![user.text()],
    )
}
