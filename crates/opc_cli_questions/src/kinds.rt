//! The kind of the unit that a command names, as the board has it.
ghost use Rattle.std.specs.Prelude.{◌≡◌};
ghost use Rattle.opc_board.specs.Invariants.{unit_kind};
ghost use Rattle.opc_machine.specs.Commands.{kind_named};
ghost use Rattle.opc_reader.specs.Reading.{reading};
ghost use Rattle.opc_state.specs.Asked.{Loads};
ghost use Rattle.opc_cli_questions.specs.Kinds.{kind_in, kind_or};

use opc_board::rows::UnitRow;
use opc_reader::line::read_command;
use opc_reader_commands::command::Command;
use opc_state::tables::Tables;
use opc_terms::store_fault::StoreFault;
use opc_terms::unit_kind::UnitKindAt;

fn kind_of(unit: &Option<UnitRow>) -> UnitKindAt
    ensures { result ≡ unit_kind unit.now }
{
    match unit {
        Some(unit) => unit.kind.found(),
        None => UnitKindAt::Absent,
    }
}

/// The kind of the unit that a command names, if what the command needs depends on it.
fn kind_named<T: Tables>(tables: &mut T, command: &Command<'_>) -> Result<UnitKindAt, StoreFault>
    ensures { Loads T.meaning tables.old tables.new result (λ s kind. kind ≡ kind_named s.board command.now) }
{
    let unit = match command {
        Command::Cancel(name)
        | Command::Force(name)
        | Command::Stop(name)
        | Command::Modify(name, _) => tables.unit(&name.value)?,
        // What the other commands need does not depend on a unit.
        _ => None,
    };
    Ok(kind_of(&unit))
}

/// The same for a text, if it is a command.
fn kind_in<T: Tables>(tables: &mut T, text: &str) -> Result<UnitKindAt, StoreFault>
    ensures { Loads T.meaning tables.old tables.new result (λ s kind. kind ≡ kind_in s.board (reading text.now)) }
{
    match read_command(text) {
        Ok(command) => kind_named(tables, &command),
        Err(_) => Ok(UnitKindAt::Absent),
    }
}

/// The kind that is given, or else that of the unit on the board.
pub(crate) fn kind_on<T: Tables>(
    tables: &mut T,
    text: &str,
    given: UnitKindAt,
) -> Result<UnitKindAt, StoreFault>
    ensures { Loads T.meaning tables.old tables.new result
        (λ s kind. kind ≡ kind_or given (kind_in s.board (reading text.now))) }
{
    match given {
        UnitKindAt::Absent => kind_in(tables, text),
        // A kind that is given counts, whatever the board has.
        _ => Ok(given),
    }
}
