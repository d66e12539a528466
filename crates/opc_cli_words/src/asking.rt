//! The subject of `opcmds explain` and `opcmds who`: a command, or a level of access.
ghost use Rattle.std.specs.Prelude.{◌≡◌, ⊤, Some, is_some, true};
ghost use Rattle.std.specs.Option.{option_copied};
ghost use Rattle.opc_cli_words.specs.Checks.{AreReadAs, IsReadAs};
ghost use Rattle.opc_cli_words.specs.Enquiries.{
  access_checks,
  command_checks,
  kind_check,
  kind_given,
  logon_check,
};

use crate::mistake::{Mistake, Opt};
use opc_answers::needed::is_logon;
use opc_answers::taken::kind_of;
use opc_names::name::ConsoleName;
use opc_terms::unit_kind::UnitKindAt;

/// The kind of the unit that the command names.
fn kind_in(given: Option<&str>) -> Result<UnitKindAt, Mistake>
    ensures { IsReadAs (λ kind. kind_given (option_copied given.entry) ≡ Some kind)
        (kind_check (option_copied given.entry)) result }
{
    let Some(text) = given else {
        return Ok(UnitKindAt::Absent);
    };
    match kind_of(text) {
        Some(kind) => Ok(kind),
        None => Err(Mistake::Unread(Opt::As)),
    }
}

/// The kind of the unit that a command names, if the command is given without a resource and a level.
pub(crate) fn kind_beside(
    kind: Option<&str>,
    resource: Option<&str>,
    level: Option<&str>,
) -> Result<UnitKindAt, Mistake>
    ensures { AreReadAs (λ read. kind_given (option_copied kind.entry) ≡ Some read)
        (command_checks (option_copied kind.entry) (option_copied resource.entry) (option_copied level.entry)) result }
{
    if resource.is_some() {
        return Err(Mistake::NotOneQuestion);
    }
    // A command itself determines the level that it needs.
    if level.is_some() {
        return Err(Mistake::Lacks(Opt::Level, Opt::Resource));
    }
    kind_in(kind)
}

/// A resource and a level are given without a unit.
pub(crate) fn need_access(
    kind: Option<&str>,
    resource: Option<&str>,
    level: Option<&str>,
) -> Result<(), Mistake>
    ensures { AreReadAs (λ _. is_some (option_copied resource.entry) ≡ true)
        (access_checks (option_copied kind.entry) (option_copied resource.entry) (option_copied level.entry)) result }
{
    if resource.is_none() {
        return Err(Mistake::NotOneQuestion);
    }
    // Only a command names a unit.
    if kind.is_some() {
        return Err(Mistake::Lacks(Opt::As, Opt::Command));
    }
    if level.is_none() {
        return Err(Mistake::Lacks(Opt::Resource, Opt::Level));
    }
    Ok(())
}

/// A question about a LOGON needs a console.
pub(crate) fn place_logon(
    command: Option<&str>,
    console: &Option<ConsoleName>,
) -> Result<(), Mistake>
    ensures { IsReadAs (λ _. ⊤) (logon_check (option_copied command.entry) console.now) result }
{
    match (command, console) {
        (Some(text), None) if is_logon(text) => Err(Mistake::LogonNowhere),
        // The command is no LOGON, or a console is given.
        _ => Ok(()),
    }
}
