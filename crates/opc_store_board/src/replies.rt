//! The table of open replies.
ghost use Rattle.std.specs.Prelude.{◌≡◌, false};
ghost use Rattle.opc_store_sql.specs.Steps.{Stays, Looks};
ghost use Rattle.opc_board.specs.Invariants.{reply_at};
ghost use Rattle.opc_state.specs.Changes.{with_replies};
ghost use Rattle.opc_state.specs.Members.{with_reply, without_reply};
ghost use Rattle.opc_store_schema.specs.Asked.{Finds, Makes};
ghost use Rattle.opc_store_schema.specs.Represented.{reply_shown};

use opc_board::rows::ReplyRow;
use opc_names::reply_id::ReplyId;
use opc_rows::Rows;
use opc_store_schema::columns::{TableRow, reply_in, reply_number};
use opc_store_schema::queries::{member_on, members_on};
use opc_store_sql::run;
use opc_terms::store_fault::StoreFault;
use sqlite::{Alter, Connection, Error, Row, Transaction, params};
use std::alloc::Global;

/// The table of open replies.
pub struct ReplyTable;

impl TableRow<ReplyRow> for ReplyTable {
    ghost row_of = { reply_shown };

    fn decode(row: &Row) -> Result<ReplyRow, StoreFault> {
        reply_in(row)
    }
}

/// Puts an open reply, in the place of the one of its number.
pub fn put_reply<S: Alter>(tx: &mut Transaction<'_, S>, reply: &ReplyRow) -> Result<(), Error>
    ensures same_reference { tx.new.conn.ghost_name ≡ tx.old.conn.ghost_name }
    ensures stays { Stays S.Store tx.old.conn.now tx.new.conn.now result }
    ensures done { Makes S.Store tx.old.conn.now tx.new.conn.now result
        (λ s. with_replies (with_reply reply.now s.board.replies) s) }
{
    // Removed and inserted, not updated: the key is SQLite's own number, and nothing refers to it.
    remove_reply(tx, reply.id)?;
    run(
        tx,
        "INSERT INTO replies VALUES (?1, ?2)",
        params![reply_number(reply.id), reply.text.as_str()],
    )?;
    Ok(())
}

/// Removes the open reply of a number.
pub fn remove_reply<S: Alter>(tx: &mut Transaction<'_, S>, id: ReplyId) -> Result<(), Error>
    ensures same_reference { tx.new.conn.ghost_name ≡ tx.old.conn.ghost_name }
    ensures stays { Stays S.Store tx.old.conn.now tx.new.conn.now result }
    ensures done { Makes S.Store tx.old.conn.now tx.new.conn.now result
        (λ s. with_replies (without_reply id s.board.replies) s) }
{
    run(
        tx,
        "DELETE FROM replies WHERE id = ?1",
        params![reply_number(id)],
    )?;
    Ok(())
}

/// The open replies, in order.
pub fn replies_on<S: Alter>(
    alloc: Global,
    conn: &mut Connection<S>,
) -> Result<Rows<ReplyRow>, StoreFault>
    requires { conn.old.in_transaction ≡ false }
    ensures mode { conn.new.in_transaction ≡ false }
    ensures looks { Looks S.Store conn.old conn.new result }
    ensures found { Finds S.Store conn.old conn.new result (λ s v. v ≡ s.board.replies) }
{
    members_on::<_, _, ReplyTable>(alloc, conn, "SELECT id, text FROM replies ORDER BY id", &[])
}

/// The open reply of a number.
pub fn reply_on<S: Alter>(
    conn: &mut Connection<S>,
    id: ReplyId,
) -> Result<Option<ReplyRow>, StoreFault>
    requires { conn.old.in_transaction ≡ false }
    ensures mode { conn.new.in_transaction ≡ false }
    ensures looks { Looks S.Store conn.old conn.new result }
    ensures found { Finds S.Store conn.old conn.new result (λ s v. v ≡ reply_at s.board id) }
{
    member_on::<_, _, ReplyTable>(
        conn,
        "SELECT id, text FROM replies WHERE id = ?1 ORDER BY id",
        params![reply_number(id)],
    )
}
