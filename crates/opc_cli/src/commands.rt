//! `opcmds commands`: the table of commands.
ghost use Rattle.opc_cli.specs.Words.{AreCommandsListed, IsTablePrinted};

use opc_cli_commands::table::table_text;
use opc_cli_failures::failure::{Failure, NO_PATHS, reported};
use opc_cli_failures::status::Status;
use opc_cli_questions::printing::print_text;
use opc_io::watched::Watched;
use opc_terms::fault::Fault;
use std::alloc::Global;
use std::io::Write;

/// Prints the table of commands, and returns the status.
pub(crate) fn list_commands<W: Write, E: Write>(
    alloc: Global,
    output: &mut Watched<W>,
    errors: &mut Watched<E>,
) -> Status
    ensures { AreCommandsListed W.contents E.contents output.old output.new errors.old errors.new result }
{
    reported(print_table(alloc, output), &NO_PATHS, errors)
}

fn print_table<W: Write>(alloc: Global, output: &mut Watched<W>) -> Result<Status, Failure>
    ensures { IsTablePrinted W.contents output.old output.new result }
{
    let Ok(text) = table_text(alloc) else {
        return Err(Failure::from(Fault::NoMemory));
    };
    print_text(text.as_str(), &mut output.inner)?;
    Ok(Status::Done)
}
