//! The source of a command's policy.
ghost use Rattle.std.specs.Prelude.{◌≡◌, codes};
ghost use Rattle.clap.specs.Matches.{first_value, found_of};
ghost use Rattle.opc_cli_words.specs.Checks.{IsReadAs};
ghost use Rattle.opc_cli_words.specs.Options.{given};
ghost use Rattle.opc_cli_words.specs.Sources.{IsSource, source_check};

use crate::mistake::Mistake;
use clap::ArgMatches;
use opc_cli_tasks::source::PolicySource;

/// The source that is given: the input if none is.
pub(crate) fn source_in<'a>(chosen: &ArgMatches<'a>) -> Result<PolicySource<'a>, Mistake>
    ensures { let value = first_value (found_of chosen.now) in
        IsReadAs (IsSource (value (codes "file")) (value (codes "policy")) (value (codes "db")))
        (source_check (value (codes "file")) (value (codes "policy")) (value (codes "db"))) result }
{
    let (file, policy) = (chosen.get_str("file"), chosen.get_str("policy"));
    if file.is_some() && policy.is_some() {
        return Err(Mistake::TwoSources);
    }
    match (file.or(policy), chosen.get_str("db")) {
        (path, None) => Ok(PolicySource::PolicyFile(path)),
        (None, Some(path)) => Ok(PolicySource::Database(path)),
        (Some(_), Some(_)) => Err(Mistake::TwoSources),
    }
}

/// The database file that is given.
pub(crate) fn database_in<'a>(chosen: &ArgMatches<'a>) -> &'a str
    ensures { result.now ≡ given (first_value (found_of chosen.now)) (codes "db") }
{
    chosen.get_str("db").unwrap_or("")
}
