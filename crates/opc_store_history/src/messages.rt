//! The table of messages.
ghost use Rattle.std.specs.Prelude.{◌≡◌, ◌++◌, ◌∷◌, [], false};
ghost use Rattle.opc_store_sql.specs.Steps.{Stays, Looks};
ghost use Rattle.opc_state.specs.Changes.{with_messages};
ghost use Rattle.opc_store_schema.specs.Asked.{Finds, Makes};
ghost use Rattle.opc_store_schema.specs.Represented.{message_shown};

use opc_board::rows::MessageRow;
use opc_rows::Rows;
use opc_store_schema::columns::{TableRow, decode_all, name_in, text_in};
use opc_store_schema::queries::read;
use opc_store_sql::numbers::last_number;
use opc_store_sql::run;
use opc_terms::store_fault::StoreFault;
use sqlite::{Alter, Connection, Error, Row, Transaction, params};
use std::alloc::Global;

/// The table of messages.
pub struct MessageTable;

impl TableRow<MessageRow> for MessageTable {
    ghost row_of = { message_shown };

    fn decode(row: &Row) -> Result<MessageRow, StoreFault> {
        Ok(MessageRow {
            user: name_in(row, 0)?,
            text: text_in(row, 1)?,
        })
    }
}

/// Adds a message after the others.
pub fn add_message<S: Alter>(tx: &mut Transaction<'_, S>, message: &MessageRow) -> Result<(), Error>
    ensures same_reference { tx.new.conn.ghost_name ≡ tx.old.conn.ghost_name }
    ensures stays { Stays S.Store tx.old.conn.now tx.new.conn.now result }
    ensures done { Makes S.Store tx.old.conn.now tx.new.conn.now result
        (λ s. with_messages (s.board.messages ++ message.now ∷ []) s) }
{
    run(
        tx,
        "INSERT INTO messages VALUES (NULL, ?1, ?2)",
        params![message.user.text(), message.text.as_str()],
    )?;
    // For the prover alone: that SQLite gave the row a number shows that the history does not outgrow its table.
    let _number = last_number(tx);
    Ok(())
}

/// The messages, in their order.
pub fn messages_on<S: Alter>(
    alloc: Global,
    conn: &mut Connection<S>,
) -> Result<Rows<MessageRow>, StoreFault>
    requires { conn.old.in_transaction ≡ false }
    ensures mode { conn.new.in_transaction ≡ false }
    ensures looks { Looks S.Store conn.old conn.new result }
    ensures found { Finds S.Store conn.old conn.new result (λ s v. v ≡ s.board.messages) }
{
    let rows = read(conn, "SELECT usr, text FROM messages ORDER BY number", &[])?;
    decode_all::<_, MessageTable>(alloc, rows.as_slice())
}
