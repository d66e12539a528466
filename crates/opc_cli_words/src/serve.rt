//! The arguments of `opcmds serve`.
ghost use Rattle.std.specs.Prelude.{codes};
ghost use Rattle.clap.specs.Matches.{first_value, found_of};
ghost use Rattle.opc_cli_words.specs.Checks.{AreReadAs};
ghost use Rattle.opc_cli_words.specs.Options.{client_checks};
ghost use Rattle.opc_cli_words.specs.Tasks.{IsTaskOf};

use crate::clients::clients_in;
use crate::mistake::Mistake;
use crate::source::database_in;
use clap::ArgMatches;
use opc_cli_tasks::task::Task;
use opc_cli_tasks::work::{Serve, Work};

/// What these arguments ask for, or the first mistake in their options.
pub(crate) fn serve<'a>(chosen: &ArgMatches<'a>) -> Result<Task<'a>, Mistake>
    ensures { AreReadAs (IsTaskOf (first_value (found_of chosen.now)) (codes "serve"))
        (client_checks (first_value (found_of chosen.now))) result }
{
    match clients_in(chosen) {
        Ok(clients) => {
            let policies = chosen.get_str("policies");
            let serve = Serve { clients, policies };
            Ok(Task::Work(database_in(chosen), Work::Serve(serve)))
        }
        Err(mistake) => Err(mistake),
    }
}
