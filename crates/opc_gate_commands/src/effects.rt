//! What commands, logons and events make of their footprints, as edits of the state.
ghost use Rattle.std.specs.Prelude.{◌≡◌, ◌≢◌, IfErr, IfOk, IsSome, Some, None, Err, [], false};
ghost use Rattle.opc_board.specs.declared.fault.BoardFault.TheVariants.{NoMemory};
ghost use Rattle.opc_board.specs.Consoles.{logged_on, logged_off};
ghost use Rattle.opc_board.specs.Effect.{effect, event_effect, is_session_command};
ghost use Rattle.opc_board.specs.Invariants.{console_at};
ghost use Rattle.opc_state.specs.State.{State};
ghost use Rattle.opc_state.specs.Changes.{all_edited};
ghost use Rattle.opc_gate_footprints.specs.Loading.{IsConsoleFootprint, IsEventFootprint, IsFootprint};
ghost use Rattle.opc_gate_commands.specs.Acted.{AreNoneWhereSame, IsActed};

use opc_board::board::Board;
use opc_board::event::Event;
use opc_board::fault::BoardFault;
use opc_board::laws::{footprints_suffice, histories_only_grow};
use opc_board::line::Line;
use opc_board::rows::ConsoleRow;
use opc_names::name::{ConsoleName, UserId};
use opc_reader_commands::command::Command;
use opc_state::change::Edit;
use opc_state::difference::{copied, difference};
use std::alloc::{AllocError, Global};

/// What a command makes of a state, and the lines that it gives.
#[derive(Drop)]
pub(crate) struct Acted {
    pub(crate) edits: Vec<Edit>,
    pub(crate) lines: Vec<Line>,
}

/// What a command makes of a state, by its footprint.
pub(crate) fn act_on(
    alloc: Global,
    mut board: Board,
    command: &Command<'_>,
    console: &ConsoleName,
) -> Result<Acted, BoardFault>
    requires console { IsSome (console_at board console.now) }
    requires command { is_session_command command.now ≡ false }
    ensures done { IfOk result (λ a. (s : State) → IsFootprint s command.now console.now board
        → IsActed s (effect s.board command.now console.now) a.edits.items a.lines.items) }
    ensures refused { IfErr result (λ fault. fault ≢ NoMemory → (s : State)
        → IsFootprint s command.now console.now board → effect s.board command.now console.now ≡ Err fault) }
{
    histories_only_grow();
    footprints_suffice();
    let old = copied(alloc, &board)?;
    let lines = board.act(alloc, command, console)?;
    let edits = difference(alloc, &old, &board)?;
    Ok(Acted { edits, lines })
}

/// What a logon at a console makes of a state, by its footprint.
pub(crate) fn log_on(
    alloc: Global,
    mut board: Board,
    console: &ConsoleRow,
    user: UserId,
) -> Result<Vec<Edit>, AllocError>
    requires there { console_at board console.now.name ≡ Some console.now }
    requires nobody { console.now.user ≡ None }
    ensures becomes { IfOk result (λ edits. (s : State) → IsConsoleFootprint s console.now.name board
        → all_edited edits.items s ≡ record s { board = logged_on console.now.name user s.board }) }
    ensures idle { IfOk result (λ edits. AreNoneWhereSame console.now.name board edits.items) }
{
    footprints_suffice();
    let old = copied(alloc, &board)?;
    board.log_on(&console.name, user);
    let edits = difference(alloc, &old, &board)?;
    Ok(edits)
}

/// What a logoff at a console makes of a state, by its footprint.
pub(crate) fn log_off(
    alloc: Global,
    mut board: Board,
    console: &ConsoleRow,
) -> Result<Vec<Edit>, AllocError>
    requires there { console_at board console.now.name ≡ Some console.now }
    requires somebody { console.now.user ≢ None }
    ensures becomes { IfOk result (λ edits. (s : State) → IsConsoleFootprint s console.now.name board
        → all_edited edits.items s ≡ record s { board = logged_off console.now.name s.board }) }
    ensures idle { IfOk result (λ edits. AreNoneWhereSame console.now.name board edits.items) }
{
    footprints_suffice();
    let old = copied(alloc, &board)?;
    board.log_off(&console.name);
    let edits = difference(alloc, &old, &board)?;
    Ok(edits)
}

/// What an event makes of a state, by its footprint.
pub(crate) fn apply_event(
    alloc: Global,
    mut board: Board,
    event: &Event,
) -> Result<Vec<Edit>, BoardFault>
    ensures done { IfOk result (λ edits. (s : State) → IsEventFootprint s event.now board
        → IsActed s (event_effect s.board event.now) edits.items []) }
    ensures refused { IfErr result (λ fault. fault ≢ NoMemory → (s : State) → IsEventFootprint s event.now board
        → event_effect s.board event.now ≡ Err fault) }
{
    histories_only_grow();
    footprints_suffice();
    let old = copied(alloc, &board)?;
    board.event(alloc, event)?;
    let edits = difference(alloc, &old, &board)?;
    Ok(edits)
}
