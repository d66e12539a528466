//! The arguments of `opcmds may`.
ghost use Rattle.std.specs.Prelude.{codes};
ghost use Rattle.clap.specs.Matches.{first_value, found_of};
ghost use Rattle.opc_cli_words.specs.Checks.{AreReadAs};
ghost use Rattle.opc_cli_words.specs.Options.{may_checks};
ghost use Rattle.opc_cli_words.specs.Tasks.{IsTaskOf};

use crate::flag::{form_in, is_set};
use crate::mistake::Mistake;
use crate::question::{console_in, user_in};
use crate::source::source_in;
use clap::ArgMatches;
use opc_cli_tasks::question::{MayQuestion, PolicyQuestion};
use opc_cli_tasks::task::Task;

/// What these arguments ask for, or the first mistake in their options.
pub(crate) fn may<'a>(chosen: &ArgMatches<'a>) -> Result<Task<'a>, Mistake>
    ensures { AreReadAs (IsTaskOf (first_value (found_of chosen.now)) (codes "may"))
        (may_checks (first_value (found_of chosen.now))) result }
{
    let user = user_in(chosen)?;
    let console = console_in(chosen)?;
    let source = source_in(chosen)?;
    let asked = MayQuestion {
        user,
        console,
        allowed: is_set(chosen, "allowed"),
        form: form_in(chosen),
    };
    Ok(Task::Ask(source, PolicyQuestion::May(asked)))
}
