//! Commands that only show.
ghost use Rattle.std.specs.Prelude.{◌≡◌, Some, true};
ghost use Rattle.opc_board.specs.Effect.{effect};
ghost use Rattle.opc_board.specs.Invariants.{Name};
ghost use Rattle.opc_board.specs.Outcome.{done_with};
ghost use Rattle.opc_gate_commands.specs.Acted.{allowed_command};
ghost use Rattle.opc_machine.specs.Commands.{is_display};
ghost use Rattle.opc_machine.specs.Effects.{IsOutcome};
ghost use Rattle.opc_gate_rulings.specs.RulingBasis.{IsRulingBasis};
ghost use Rattle.opc_state.specs.Asked.{Answers, Loads};
ghost use Rattle.opc_state.specs.Changes.{IsKept};

use opc_board::line::{Line, console_lines, device_lines, lines_of, reply_lines, unit_lines};
use opc_board::rows::ConsoleRow;
use opc_gate_rulings::ruling::{RulingBasis, shown_lines};
use opc_machine::outcome::{Effect, Outcome};
use opc_reader_commands::command::Command;
use opc_state::tables::Tables;
use opc_terms::rule::Rule;
use opc_terms::store_fault::StoreFault;
use std::alloc::Global;

pub(crate) fn is_display(command: &Command<'_>) -> bool
    ensures { result ≡ is_display command.now }
{
    match command {
        Command::DisplayUnits
        | Command::DisplayUnit(_)
        | Command::DisplayDevices
        | Command::DisplayConsoles
        | Command::DisplayReplies => true,
        // Every other command may change the board, even one that shows a line, as R does.
        _ => false,
    }
}

// The lines of a display, whoever may see them; it reads the one table that it shows.
fn lines_on<T: Tables>(
    tables: &mut T,
    alloc: Global,
    command: &Command<'_>,
) -> Result<Vec<Line>, StoreFault>
    requires { is_display command.now ≡ true }
    ensures kept { IsKept T.meaning tables.old tables.new }
    ensures lines { Answers T.meaning tables.old tables.new result
        (λ s lines. (console : Name) → effect s.board command.now console ≡ done_with s.board lines.items) }
{
    let lines = match command {
        Command::DisplayUnits => unit_lines(alloc, tables.units(alloc)?.as_slice())?,
        Command::DisplayUnit(name) => lines_of(alloc, tables.unit(&name.value)?.as_ref())?,
        Command::DisplayDevices => device_lines(alloc, tables.devices(alloc)?.as_slice())?,
        Command::DisplayConsoles => console_lines(alloc, tables.consoles(alloc)?.as_slice())?,
        Command::DisplayReplies => reply_lines(alloc, tables.replies(alloc)?.as_slice())?,
        // The caller passes displays alone.
        _ => unreachable!(),
    };
    Ok(lines)
}

/// The outcome of a display, if a rule allows it: those lines that may be shown, and no change.
pub(crate) fn display_on<T: Tables>(
    tables: &mut T,
    alloc: Global,
    basis: &RulingBasis,
    console: &ConsoleRow,
    command: &Command<'_>,
    rule: Rule,
) -> Result<Outcome, StoreFault>
    requires { is_display command.now ≡ true }
    ensures { Loads T.meaning tables.old tables.new result
        (λ s o. IsRulingBasis s console.now basis.now
        → IsOutcome s (allowed_command s console.now command.now rule) o) }
{
    let lines = lines_on(tables, alloc, command)?;
    let lines = shown_lines(tables, alloc, basis, console, lines)?;
    Ok(Outcome::Done(Effect {
        edits: Vec::new(alloc),
        lines,
        rule: Some(rule),
    }))
}
