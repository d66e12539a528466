//! The arguments of `opcmds who`.
ghost use Rattle.std.specs.Prelude.{◌≡◌, None, Some, codes};
ghost use Rattle.std.specs.Option.{option_copied};
ghost use Rattle.clap.specs.Matches.{first_value, found_of};
ghost use Rattle.opc_cli_words.specs.Checks.{AreReadAs};
ghost use Rattle.opc_cli_words.specs.Enquiries.{IsAbout, enquiry_checks};
ghost use Rattle.opc_cli_words.specs.Options.{given, who_checks};
ghost use Rattle.opc_cli_words.specs.Tasks.{IsTaskOf};

use crate::asking::{kind_beside, need_access, place_logon};
use crate::flag::{form_in, is_set};
use crate::mistake::Mistake;
use crate::question::{class_in, console_in, level_in, resource_in};
use crate::quotes::need_quotes;
use crate::source::source_in;
use clap::ArgMatches;
use opc_answers::question::{About, Asks, Question};
use opc_cli_tasks::question::{Ask, PolicyQuestion};
use opc_cli_tasks::task::Task;

/// About a level of access.
fn of_access<'a>(
    chosen: &ArgMatches<'a>,
    kind: Option<&'a str>,
    resource: Option<&'a str>,
    level: Option<&'a str>,
) -> Result<About<'a>, Mistake>
    requires resource { option_copied resource ≡ first_value (found_of chosen.now) (codes "resource") }
    requires level { option_copied level ≡ first_value (found_of chosen.now) (codes "level") }
    ensures { AreReadAs
        (IsAbout None (option_copied kind.entry) (option_copied resource.entry) (option_copied level.entry)
        (given (first_value (found_of chosen.now)) (codes "class")))
        (enquiry_checks None (option_copied kind.entry) (option_copied resource.entry) (option_copied level.entry)
        (given (first_value (found_of chosen.now)) (codes "class"))) result }
{
    need_access(kind, resource, level)?;
    let class = class_in(chosen)?;
    let resource = resource_in(chosen)?;
    let level = level_in(chosen)?;
    Ok(About::Access {
        class,
        resource,
        level,
    })
}

/// The subject of the question.
fn about<'a>(chosen: &ArgMatches<'a>) -> Result<About<'a>, Mistake>
    ensures { let value = first_value (found_of chosen.now) in
        AreReadAs
        (IsAbout (value (codes "command")) (value (codes "as")) (value (codes "resource")) (value (codes "level"))
        (given value (codes "class")))
        (enquiry_checks (value (codes "command")) (value (codes "as")) (value (codes "resource"))
        (value (codes "level")) (given value (codes "class"))) result }
{
    let kind = chosen.get_str("as");
    let resource = chosen.get_str("resource");
    let level = chosen.get_str("level");
    match chosen.get_str("command") {
        Some(text) => {
            let kind = kind_beside(kind, resource, level)?;
            Ok(About::Command { text, kind })
        }
        None => of_access(chosen, kind, resource, level),
    }
}

/// What these arguments ask for, or the first mistake in their options.
pub(crate) fn who<'a>(chosen: &ArgMatches<'a>) -> Result<Task<'a>, Mistake>
    ensures { AreReadAs (IsTaskOf (first_value (found_of chosen.now)) (codes "who"))
        (who_checks (first_value (found_of chosen.now))) result }
{
    match about(chosen) {
        Ok(about) => {
            let console = console_in(chosen)?;
            need_quotes(chosen)?;
            let source = source_in(chosen)?;
            place_logon(chosen.get_str("command"), &console)?;
            let allowed = is_set(chosen, "allowed");
            let question = Question {
                about,
                console,
                asks: Asks::Who { allowed },
            };
            let form = form_in(chosen);
            Ok(Task::Ask(source, PolicyQuestion::Ask(Ask { question, form })))
        }
        Err(mistake) => Err(mistake),
    }
}
