//! The arguments of `opcmds diff`.
ghost use Rattle.std.specs.Prelude.{codes};
ghost use Rattle.clap.specs.Matches.{first_value, found_of};
ghost use Rattle.opc_cli_words.specs.Sources.{IsNamed};
ghost use Rattle.opc_cli_words.specs.Tasks.{IsTaskOf};

use crate::flag::form_in;
use clap::ArgMatches;
use opc_cli_tasks::question::Comparison;
use opc_cli_tasks::source::NamedPolicy;
use opc_cli_tasks::task::Task;

/// A policy file, or a database behind `db:`.
fn named<'a>(text: &'a str) -> NamedPolicy<'a>
    ensures { IsNamed text.entry.now result }
{
    match text.strip_prefix("db:") {
        Some(path) => NamedPolicy::Database(path),
        None => NamedPolicy::File(text),
    }
}

/// What these arguments ask for.
pub(crate) fn diff<'a>(chosen: &ArgMatches<'a>) -> Task<'a>
    ensures { IsTaskOf (first_value (found_of chosen.now)) (codes "diff") result }
{
    Task::Diff(Comparison {
        old: named(chosen.get_str("old").unwrap_or("")),
        new: named(chosen.get_str("new").unwrap_or("")),
        form: form_in(chosen),
    })
}
