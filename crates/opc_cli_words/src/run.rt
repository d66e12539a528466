//! The arguments of `opcmds run`.
ghost use Rattle.std.specs.Prelude.{codes};
ghost use Rattle.clap.specs.Matches.{first_value, found_of};
ghost use Rattle.opc_cli_words.specs.Checks.{AreReadAs};
ghost use Rattle.opc_cli_words.specs.Runs.{IsLines, run_checks};
ghost use Rattle.opc_cli_words.specs.Tasks.{IsTaskOf};

use crate::flag::is_set;
use crate::mistake::{Mistake, Opt};
use crate::question::console_in;
use clap::ArgMatches;
use opc_cli_tasks::task::Task;
use opc_cli_tasks::work::{Lines, Work};

/// Which lines are answered, and how: at a console with a valid name, if one is named.
fn lines_in<'a>(chosen: &ArgMatches<'a>) -> Result<Lines<'a>, Mistake>
    ensures { AreReadAs (IsLines (first_value (found_of chosen.now))) (run_checks (first_value (found_of chosen.now)))
        result }
{
    let console = console_in(chosen)?;
    let file = chosen.get_str("file");
    match (is_set(chosen, "now"), console, file) {
        (true, _, Some(_)) => Err(Mistake::TwoInputs),
        (true, console, None) => Ok(Lines::Now(console)),
        // The lines of a script name their consoles.
        (false, Some(_), _) => Err(Mistake::Lacks(Opt::Console, Opt::Now)),
        (false, None, file) => Ok(Lines::Script(file)),
    }
}

/// What these arguments ask for, or the first mistake in their options.
pub(crate) fn run<'a>(chosen: &ArgMatches<'a>) -> Result<Task<'a>, Mistake>
    ensures { AreReadAs (IsTaskOf (first_value (found_of chosen.now)) (codes "run"))
        (run_checks (first_value (found_of chosen.now))) result }
{
    match lines_in(chosen) {
        Ok(lines) => {
            let policy = chosen.get_str("policy");
            let log = chosen.get_str("log");
            match chosen.get_str("db") {
                Some(path) => Ok(Task::Work(path, Work::Run { policy, lines, log })),
                None => Ok(Task::InMemory { policy, lines, log }),
            }
        }
        Err(mistake) => Err(mistake),
    }
}
