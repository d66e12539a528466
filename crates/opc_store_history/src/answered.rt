//! The table of answered replies.
ghost use Rattle.std.specs.Prelude.{◌≡◌, ◌++◌, ◌∷◌, [], false};
ghost use Rattle.opc_store_sql.specs.Steps.{Stays, Looks};
ghost use Rattle.opc_state.specs.Changes.{with_answered};
ghost use Rattle.opc_store_schema.specs.Asked.{Finds, Makes};
ghost use Rattle.opc_store_schema.specs.Represented.{reply_shown};

use opc_board::rows::ReplyRow;
use opc_rows::Rows;
use opc_store_schema::columns::{TableRow, decode_all, reply_in, reply_number};
use opc_store_schema::queries::read;
use opc_store_sql::numbers::last_number;
use opc_store_sql::run;
use opc_terms::store_fault::StoreFault;
use sqlite::{Alter, Connection, Error, Row, Transaction, params};
use std::alloc::Global;

/// The table of answered replies.
pub struct AnsweredTable;

impl TableRow<ReplyRow> for AnsweredTable {
    ghost row_of = { reply_shown };

    fn decode(row: &Row) -> Result<ReplyRow, StoreFault> {
        reply_in(row)
    }
}

/// Adds an answered reply after the others.
pub fn add_answered<S: Alter>(tx: &mut Transaction<'_, S>, reply: &ReplyRow) -> Result<(), Error>
    ensures same_reference { tx.new.conn.ghost_name ≡ tx.old.conn.ghost_name }
    ensures stays { Stays S.Store tx.old.conn.now tx.new.conn.now result }
    ensures done { Makes S.Store tx.old.conn.now tx.new.conn.now result
        (λ s. with_answered (s.board.answered ++ reply.now ∷ []) s) }
{
    run(
        tx,
        "INSERT INTO answered VALUES (NULL, ?1, ?2)",
        params![reply_number(reply.id), reply.text.as_str()],
    )?;
    // For the prover alone: that SQLite gave the row a number shows that the history does not outgrow its table.
    let _number = last_number(tx);
    Ok(())
}

/// The answered replies, in the order of their answers.
pub fn answered_on<S: Alter>(
    alloc: Global,
    conn: &mut Connection<S>,
) -> Result<Rows<ReplyRow>, StoreFault>
    requires { conn.old.in_transaction ≡ false }
    ensures mode { conn.new.in_transaction ≡ false }
    ensures looks { Looks S.Store conn.old conn.new result }
    ensures found { Finds S.Store conn.old conn.new result (λ s v. v ≡ s.board.answered) }
{
    let rows = read(conn, "SELECT id, text FROM answered ORDER BY number", &[])?;
    decode_all::<_, AnsweredTable>(alloc, rows.as_slice())
}
