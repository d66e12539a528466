//! The arguments of `opcmds import`.
ghost use Rattle.std.specs.Prelude.{◌≡◌, Some, codes};
ghost use Rattle.clap.specs.Matches.{first_value, found_of};
ghost use Rattle.opc_cli_words.specs.Checks.{AreReadAs, IsReadAs};
ghost use Rattle.opc_cli_words.specs.Options.{batch_of, batch_option, import_checks};
ghost use Rattle.opc_cli_words.specs.Tasks.{IsTaskOf};

use crate::flag::is_set;
use crate::mistake::{Mistake, Opt};
use crate::number::number_between;
use crate::question::console_in;
use crate::source::database_in;
use clap::ArgMatches;
use opc_cli_tasks::task::Task;
use opc_cli_tasks::work::{Import, Work};

/// A batch's number, 1 to 999,999,999.
fn batch_in(chosen: &ArgMatches<'_>) -> Result<u32, Mistake>
    ensures { IsReadAs (λ batch. batch_of (first_value (found_of chosen.now)) ≡ Some batch)
        (batch_option (first_value (found_of chosen.now))) result }
{
    match number_between(chosen.get_str("batch").unwrap_or(""), 1, 999_999_999) {
        Some(number) => Ok(number as u32),
        None => Err(Mistake::Unread(Opt::Batch)),
    }
}

/// What these arguments ask for, or the first mistake in their options.
pub(crate) fn import<'a>(chosen: &ArgMatches<'a>) -> Result<Task<'a>, Mistake>
    ensures { AreReadAs (IsTaskOf (first_value (found_of chosen.now)) (codes "import"))
        (import_checks (first_value (found_of chosen.now))) result }
{
    let batch = batch_in(chosen)?;
    let console = console_in(chosen)?;
    let import = Import {
        batch,
        console,
        file: chosen.get_str("file"),
    };
    let path = database_in(chosen);
    if is_set(chosen, "dry-run") {
        Ok(Task::DryRun(path, import))
    } else {
        Ok(Task::Work(path, Work::Import(import)))
    }
}
