//! The table of users.
ghost use Rattle.std.specs.Prelude.{◌≡◌, ℕ, false, List, Option, IfOk};
ghost use Rattle.opc_store_sql.specs.Steps.{Stays, Looks};
ghost use Rattle.std.specs.Option.{option_copied};
ghost use Rattle.opc_policy_members.specs.Members.{with_user, user_of};
ghost use Rattle.opc_policy_members.specs.Taken.{has_user};
ghost use Rattle.opc_store_schema.specs.Asked.{Finds, Makes};
ghost use Rattle.opc_state.specs.Changes.{with_users};
ghost use Rattle.opc_state.specs.Members.{without_user};
ghost use Rattle.sqlite.specs.Order.{column};
ghost use Rattle.opc_policy_members.specs.declared.user.User.{User as TheUser};
ghost use Rattle.opc_state.specs.State.{has_users};
ghost use Rattle.opc_store_schema.specs.Represented.{or_null, user_row};

use opc_names::name::UserId;
use opc_policy_members::user::User;
use opc_rows::Rows;
use opc_store_schema::columns::{TableRow, name_in, value_in};
use opc_store_schema::faults::unreadable;
use opc_store_schema::queries::{member_on, members_on};
use opc_store_schema::there::is_there_on;
use opc_store_sql::{put, run};
use opc_terms::store_fault::StoreFault;
use sqlite::{Alter, Connection, Error, Row, Transaction, params};
use std::alloc::Global;

/// The table of users.
pub struct UserTable;

impl TableRow<User> for UserTable {
    ghost row_of = { user_row };

    fn decode(row: &Row) -> Result<User, StoreFault> {
        user_in(row)
    }
}

/// Puts a user, in the place of the one of its id.
pub fn put_user<S: Alter>(tx: &mut Transaction<'_, S>, user: &User) -> Result<(), Error>
    ensures same_reference { tx.new.conn.ghost_name ≡ tx.old.conn.ghost_name }
    ensures stays { Stays S.Store tx.old.conn.now tx.new.conn.now result }
    ensures done { Makes S.Store tx.old.conn.now tx.new.conn.now result
        (λ s. with_users (with_user user.now s.policy.users) s) }
{
    put(
        tx,
        "UPDATE usr SET id = ?1, special = ?2, auditor = ?3, revoked = ?4, digest = ?5, restricted = ?6 WHERE id = ?1",
        "INSERT INTO usr VALUES (?1, ?2, ?3, ?4, ?5, ?6)",
        params![
            user.id.text(),
            user.special,
            user.auditor,
            user.revoked,
            digest_of(user),
            user.restricted
        ],
    )
}

/// Removes the user of an id.
pub fn remove_user<S: Alter>(tx: &mut Transaction<'_, S>, id: &UserId) -> Result<(), Error>
    ensures same_reference { tx.new.conn.ghost_name ≡ tx.old.conn.ghost_name }
    ensures stays { Stays S.Store tx.old.conn.now tx.new.conn.now result }
    ensures done { Makes S.Store tx.old.conn.now tx.new.conn.now result
        (λ s. with_users (without_user id.now s.policy.users) s) }
{
    run(tx, "DELETE FROM usr WHERE id = ?1", params![id.text()])?;
    Ok(())
}

fn digest_of(user: &User) -> Option<&[u8]>
    ensures { option_copied result ≡ user.now.digest }
{
    match &user.digest {
        Some(digest) => Some(&digest[..]),
        None => None,
    }
}

fn digest_in(row: &Row, at: usize) -> Result<Option<[u8; 32]>, StoreFault>
    ensures { (digest : Option (List ℕ)) → column row.now at ≡ or_null digest → IfOk result (λ v. v ≡ digest) }
{
    let bytes: Option<Vec<u8>> = value_in(row, at)?;
    match bytes {
        Some(bytes) => match <[u8; 32]>::try_from(bytes.as_slice()) {
            Ok(digest) => Ok(Some(digest)),
            Err(_) => Err(unreadable()),
        },
        None => Ok(None),
    }
}

/// The user that a row of the table holds.
pub fn user_in(row: &Row) -> Result<User, StoreFault>
    ensures { (u : TheUser) → row.now ≡ user_row u → IfOk result (λ v. v ≡ u) }
{
    Ok(User {
        id: name_in(row, 0)?,
        special: value_in(row, 1)?,
        auditor: value_in(row, 2)?,
        revoked: value_in(row, 3)?,
        digest: digest_in(row, 4)?,
        restricted: value_in(row, 5)?,
    })
}

/// The user of an id.
pub fn user_on<S: Alter>(conn: &mut Connection<S>, id: &UserId) -> Result<Option<User>, StoreFault>
    requires { conn.old.in_transaction ≡ false }
    ensures mode { conn.new.in_transaction ≡ false }
    ensures looks { Looks S.Store conn.old conn.new result }
    ensures found { Finds S.Store conn.old conn.new result (λ s v. v ≡ user_of s.policy.users id.now) }
{
    member_on::<_, _, UserTable>(
        conn,
        "SELECT id, special, auditor, revoked, digest, restricted FROM usr WHERE id = ?1 ORDER BY id",
        params![id.text()],
    )
}

/// Whether a user has this name.
pub fn has_user_on<S: Alter>(conn: &mut Connection<S>, name: &str) -> Result<bool, StoreFault>
    requires { conn.old.in_transaction ≡ false }
    ensures mode { conn.new.in_transaction ≡ false }
    ensures looks { Looks S.Store conn.old conn.new result }
    ensures found { Finds S.Store conn.old conn.new result (λ s v. v ≡ has_user s.policy name.now) }
{
    is_there_on(
        conn,
        "SELECT id FROM usr WHERE id = ?1 LIMIT 1",
        params![name],
    )
}

/// Whether a user is stored. At most one row is read.
pub fn has_users_on<S: Alter>(conn: &mut Connection<S>) -> Result<bool, StoreFault>
    requires { conn.old.in_transaction ≡ false }
    ensures mode { conn.new.in_transaction ≡ false }
    ensures looks { Looks S.Store conn.old conn.new result }
    ensures found { Finds S.Store conn.old conn.new result (λ s v. v ≡ has_users s.policy) }
{
    is_there_on(conn, "SELECT id FROM usr LIMIT 1", &[])
}

/// The users, in order.
pub fn users_on<S: Alter>(alloc: Global, conn: &mut Connection<S>) -> Result<Rows<User>, StoreFault>
    requires { conn.old.in_transaction ≡ false }
    ensures mode { conn.new.in_transaction ≡ false }
    ensures looks { Looks S.Store conn.old conn.new result }
    ensures found { Finds S.Store conn.old conn.new result (λ s v. v ≡ s.policy.users) }
{
    members_on::<_, _, UserTable>(
        alloc,
        conn,
        "SELECT id, special, auditor, revoked, digest, restricted FROM usr ORDER BY id",
        &[],
    )
}
