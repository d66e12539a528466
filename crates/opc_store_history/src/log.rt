//! The table of the log.
ghost use Rattle.std.specs.Prelude.{◌≡◌, ◌++◌, ◌∷◌, [], false};
ghost use Rattle.opc_store_sql.specs.Steps.{Stays, Looks};
ghost use Rattle.opc_state.specs.Changes.{with_log};
ghost use Rattle.opc_store_schema.specs.Asked.{Finds, Makes};
ghost use Rattle.opc_store_schema.specs.Represented.{log_shown};

use opc_board::text::KeptText;
use opc_rows::Rows;
use opc_store_schema::columns::{TableRow, decode_all, text_in};
use opc_store_schema::queries::read;
use opc_store_sql::numbers::last_number;
use opc_store_sql::run;
use opc_terms::store_fault::StoreFault;
use sqlite::{Alter, Connection, Error, Row, Transaction, params};
use std::alloc::Global;

/// The table of the log.
pub struct LogTable;

impl TableRow<KeptText> for LogTable {
    ghost row_of = { log_shown };

    fn decode(row: &Row) -> Result<KeptText, StoreFault> {
        text_in(row, 0)
    }
}

/// Adds a line to the log.
pub fn add_log<S: Alter>(tx: &mut Transaction<'_, S>, text: &KeptText) -> Result<(), Error>
    ensures same_reference { tx.new.conn.ghost_name ≡ tx.old.conn.ghost_name }
    ensures stays { Stays S.Store tx.old.conn.now tx.new.conn.now result }
    ensures done { Makes S.Store tx.old.conn.now tx.new.conn.now result
        (λ s. with_log (s.board.log ++ text.now ∷ []) s) }
{
    run(
        tx,
        "INSERT INTO log VALUES (NULL, ?1)",
        params![text.as_str()],
    )?;
    // For the prover alone: that SQLite gave the row a number shows that the log does not outgrow its table.
    let _number = last_number(tx);
    Ok(())
}

/// The log, in its order.
pub fn log_on<S: Alter>(
    alloc: Global,
    conn: &mut Connection<S>,
) -> Result<Rows<KeptText>, StoreFault>
    requires { conn.old.in_transaction ≡ false }
    ensures mode { conn.new.in_transaction ≡ false }
    ensures looks { Looks S.Store conn.old conn.new result }
    ensures found { Finds S.Store conn.old conn.new result (λ s v. v ≡ s.board.log) }
{
    let rows = read(conn, "SELECT text FROM log ORDER BY number", &[])?;
    decode_all::<_, LogTable>(alloc, rows.as_slice())
}
