//! The footprint of a command, an event, a logon or a logoff: the rows of the board that it reads or writes.
ghost use Rattle.std.specs.Prelude.{◌≡◌, IfOk, IsSome, Some, [], false};
ghost use Rattle.opc_board.specs.Enough.{no_rows};
ghost use Rattle.opc_board.specs.Invariants.{console_at};
ghost use Rattle.opc_board.specs.History.{without_history};
ghost use Rattle.opc_state.specs.Asked.{Loads};
ghost use Rattle.opc_state.specs.Invariants.{IsKeyed};
ghost use Rattle.opc_state.specs.State.{State};
ghost use Rattle.opc_machine.specs.Commands.{is_display};
ghost use Rattle.opc_gate_footprints.specs.BoardKeys.{HasKeys};
ghost use Rattle.opc_gate_footprints.specs.Loading.{
  LoadsFirst,
  HasLoaded,
  IsConsoleFootprint,
  IsEventFootprint,
  IsPart,
  IsFootprint,
  IsUnitOf,
};

use crate::keys::{BoardKeys, keys_of_command, keys_of_event};
use crate::load_one::{add_console, load_console, load_device, load_reply, load_unit_once};
use crate::load_several::{load_addressed, load_leaving, load_swapped, load_taken, load_varied};
use opc_board::board::{Board, BoardRows};
use opc_board::event::Event;
use opc_board::rows::{ConsoleRow, UnitRow};
use opc_reader_commands::command::Command;
use opc_rows::Rows;
use opc_state::tables::Tables;
use opc_terms::store_fault::StoreFault;
use std::alloc::Global;

// No row, on a day that is halted or not.
fn nothing(alloc: Global, halted: bool) -> BoardRows
    ensures part { (s : State) → halted ≡ s.board.halted → IsPart s no_rows result }
    ensures nowhere { result.consoles ≡ [] }
{
    BoardRows {
        units: Rows::new(alloc),
        devices: Rows::new(alloc),
        consoles: Rows::new(alloc),
        replies: Rows::new(alloc),
        answered: Rows::new(alloc),
        log: Rows::new(alloc),
        messages: Rows::new(alloc),
        halted,
    }
}

// Loads what is named. A unit may be loaded already.
fn load_keys<T: Tables>(
    tables: &mut T,
    alloc: Global,
    part: &mut BoardRows,
    keys: BoardKeys,
    loaded: Option<UnitRow>,
) -> Result<(), StoreFault>
    ensures { Loads T.meaning tables.old tables.new result
        (λ s _. IsUnitOf s loaded
        → LoadsFirst s part.old part.new (λ footprint. HasKeys footprint (without_history s.board) keys)) }
{
    match keys {
        BoardKeys::Nothing => Ok(()),
        BoardKeys::Unit(name) => load_unit_once(tables, part, &name, loaded),
        BoardKeys::Leaving(name) => load_leaving(tables, alloc, part, &name, loaded),
        BoardKeys::Device(number) => load_device(tables, part, &number),
        BoardKeys::Swapped(from, to) => load_swapped(tables, part, &from, &to),
        BoardKeys::Taken(number, name) => load_taken(tables, part, &number, &name),
        BoardKeys::Console(name) => load_console(tables, part, &name),
        BoardKeys::Varied(name) => load_varied(tables, alloc, part, &name),
        BoardKeys::Addressed(user) => load_addressed(tables, alloc, part, &user),
        BoardKeys::Reply(id) => load_reply(tables, part, id),
    }
}

// What is named of the board, and whether the day is halted.
fn loaded_rows<T: Tables>(
    tables: &mut T,
    alloc: Global,
    keys: BoardKeys,
    loaded: Option<UnitRow>,
) -> Result<BoardRows, StoreFault>
    ensures { Loads T.meaning tables.old tables.new result
        (λ s part. IsUnitOf s loaded
        → IsKeyed s × HasLoaded s no_rows part (λ footprint. HasKeys footprint (without_history s.board) keys)) }
{
    let halted = tables.is_halted()?;
    let mut part = nothing(alloc, halted);
    load_keys(tables, alloc, &mut part, keys, loaded)?;
    Ok(part)
}

// The board of these rows. Rows that break an invariant are refused.
fn board_of(part: BoardRows) -> Result<Board, StoreFault>
    ensures { IfOk result (λ board. board ≡ part) }
{
    Board::of(part).map_err(|_| StoreFault::Store)
}

/// The footprint of a command that does more than show, typed at a console whose row is loaded. The unit that it names
/// may be loaded already. It fails if the board breaks an invariant there.
pub fn footprint_on<T: Tables>(
    tables: &mut T,
    alloc: Global,
    command: &Command<'_>,
    console: &ConsoleRow,
    unit: Option<UnitRow>,
) -> Result<Board, StoreFault>
    requires { is_display command.now ≡ false }
    ensures there { IfOk result (λ board. IsSome (console_at board console.now.name)) }
    ensures footprint { Loads T.meaning tables.old tables.new result
        (λ s board. console_at s.board console.now.name ≡ Some console.now → IsUnitOf s unit
        → IsFootprint s command.now console.now.name board) }
{
    let mut part = loaded_rows(tables, alloc, keys_of_command(command), unit)?;
    add_console(&mut part, console)?;
    board_of(part)
}

/// The footprint of an event.
pub fn event_footprint_on<T: Tables>(
    tables: &mut T,
    alloc: Global,
    event: &Event,
) -> Result<Board, StoreFault>
    ensures { Loads T.meaning tables.old tables.new result (λ s board. IsEventFootprint s event.now board) }
{
    let part = loaded_rows(tables, alloc, keys_of_event(event), None)?;
    board_of(part)
}

/// The footprint of a logon or a logoff: its console, whose row is loaded.
pub fn console_footprint_on<T: Tables>(
    tables: &mut T,
    alloc: Global,
    console: &ConsoleRow,
) -> Result<Board, StoreFault>
    ensures there { IfOk result (λ board. console_at board console.now.name ≡ Some console.now) }
    ensures footprint { Loads T.meaning tables.old tables.new result
        (λ s board. console_at s.board console.now.name ≡ Some console.now
        → IsConsoleFootprint s console.now.name board) }
{
    let mut part = nothing(alloc, tables.is_halted()?);
    add_console(&mut part, console)?;
    board_of(part)
}
