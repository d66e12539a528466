//! The command `opcmds sheet`, as `clap` reads it, and its arguments.
ghost use Rattle.std.specs.Prelude.{◌≡◌, IfOk, codes};
ghost use Rattle.clap.specs.Matches.{first_value, found_of};
ghost use Rattle.opc_cli_words.specs.Checks.{AreReadAs};
ghost use Rattle.opc_cli_words.specs.CommandLine.{IsCommand, source_options};
ghost use Rattle.opc_cli_words.specs.Options.{sheet_checks};
ghost use Rattle.opc_cli_words.specs.Sources.{name_of};
ghost use Rattle.opc_cli_words.specs.Tasks.{IsTaskOf};

use crate::command_line::{DATABASE_FILE, POLICY_FILE, command, positional, value};
use crate::mistake::Mistake;
use crate::source::source_in;
use clap::{ArgMatches, Command};
use opc_cli_tasks::question::PolicyQuestion;
use opc_cli_tasks::source::PolicySource;
use opc_cli_tasks::task::Task;
use std::alloc::{AllocError, Global};

pub(crate) fn sheet_command<'a>(alloc: Global) -> Result<Command<'a>, AllocError>
    ensures { IfOk result (λ built. IsCommand built (codes "sheet") source_options) }
{
    command(
        alloc,
        "sheet",
        "Makes a page of a policy, in HTML",
        "opcmds sheet [OPTIONS] [FILE] > PAGE",
        "The page has the notes on the policy; what decides each command, and who may\n\
         enter it, by what; the consoles; who may change the policy. It has no script.\n\
         \n\
         Example: opcmds sheet policy.csv > policy.html\n\
         Status: 0 done, 1 refused, 2 invalid arguments or policy file,\n\
         \x20       3 out of memory or a failed device",
    )
    .arg(value(alloc, "policy", "FILE", POLICY_FILE))?
    .arg(value(alloc, "db", "FILE", DATABASE_FILE))?
    .arg(positional(alloc, "file", "FILE", POLICY_FILE))
}

/// How a page names the policy from a source.
fn name_of<'a>(source: PolicySource<'a>) -> &'a str
    ensures { result.now ≡ name_of source.entry }
{
    match source {
        PolicySource::PolicyFile(Some(path)) | PolicySource::Database(path) => path,
        PolicySource::PolicyFile(None) => "standard input",
    }
}

/// What these arguments ask for, or the mistake in their options.
pub(crate) fn sheet<'a>(chosen: &ArgMatches<'a>) -> Result<Task<'a>, Mistake>
    ensures { AreReadAs (IsTaskOf (first_value (found_of chosen.now)) (codes "sheet"))
        (sheet_checks (first_value (found_of chosen.now))) result }
{
    match source_in(chosen) {
        Ok(source) => Ok(Task::Ask(source, PolicyQuestion::Sheet(name_of(source)))),
        Err(mistake) => Err(mistake),
    }
}
