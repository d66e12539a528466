//! The whole board, and the rows of a policy file, from the tables of several crates.
ghost use Rattle.std.specs.Prelude.{◌≡◌, false};
ghost use Rattle.opc_store_sql.specs.Steps.{Looks};
ghost use Rattle.opc_state.specs.PolicyFile.{rows_of};
ghost use Rattle.opc_store_schema.specs.Asked.{Finds};

use opc_board::board::BoardRows;
use opc_policy_members::row::Row;
use opc_store_board::board::live_rows_on;
use opc_store_board::consoles::consoles_on;
use opc_store_history::answered::answered_on;
use opc_store_history::log::log_on;
use opc_store_history::messages::messages_on;
use opc_store_whole_policy::rows::policy_rows_on;
use opc_terms::store_fault::StoreFault;
use sqlite::{Alter, Connection};
use std::alloc::Global;

/// All rows of the board, with the histories.
pub(crate) fn board_rows_on<S: Alter>(
    alloc: Global,
    conn: &mut Connection<S>,
) -> Result<BoardRows, StoreFault>
    requires { conn.old.in_transaction ≡ false }
    ensures mode { conn.new.in_transaction ≡ false }
    ensures looks { Looks S.Store conn.old conn.new result }
    ensures found { Finds S.Store conn.old conn.new result (λ s v. v ≡ s.board) }
{
    let mut board = live_rows_on(alloc, conn)?;
    board.answered = answered_on(alloc, conn)?;
    board.log = log_on(alloc, conn)?;
    board.messages = messages_on(alloc, conn)?;
    Ok(board)
}

/// The policy and the consoles, as rows of a policy file.
pub(crate) fn policy_file_on<S: Alter>(
    alloc: Global,
    conn: &mut Connection<S>,
) -> Result<Vec<Row>, StoreFault>
    requires { conn.old.in_transaction ≡ false }
    ensures mode { conn.new.in_transaction ≡ false }
    ensures looks { Looks S.Store conn.old conn.new result }
    ensures found { Finds S.Store conn.old conn.new result (λ s v. v.items ≡ rows_of s.policy s.board.consoles) }
{
    let consoles = consoles_on(alloc, conn)?;
    policy_rows_on(alloc, conn, consoles.as_slice())
}
