//! The board without its histories, read back.
ghost use Rattle.std.specs.Prelude.{◌≡◌, false};
ghost use Rattle.opc_store_sql.specs.Steps.{Looks};
ghost use Rattle.opc_board.specs.History.{without_history};
ghost use Rattle.opc_store_schema.specs.Asked.{Finds};

use crate::consoles::consoles_on;
use crate::day::halted_on;
use crate::devices::devices_on;
use crate::replies::replies_on;
use crate::units::units_on;
use opc_board::board::BoardRows;
use opc_rows::Rows;
use opc_terms::store_fault::StoreFault;
use sqlite::{Alter, Connection};
use std::alloc::Global;

/// The rows of the board, with empty histories.
pub fn live_rows_on<S: Alter>(
    alloc: Global,
    conn: &mut Connection<S>,
) -> Result<BoardRows, StoreFault>
    requires { conn.old.in_transaction ≡ false }
    ensures mode { conn.new.in_transaction ≡ false }
    ensures looks { Looks S.Store conn.old conn.new result }
    ensures found { Finds S.Store conn.old conn.new result (λ s v. v ≡ without_history s.board) }
{
    let units = units_on(alloc, conn)?;
    let devices = devices_on(alloc, conn)?;
    let consoles = consoles_on(alloc, conn)?;
    let replies = replies_on(alloc, conn)?;
    let halted = halted_on(conn)?;
    Ok(BoardRows {
        units,
        devices,
        consoles,
        replies,
        answered: Rows::new(alloc),
        log: Rows::new(alloc),
        messages: Rows::new(alloc),
        halted,
    })
}
