//! The arguments of `opcmds explain` about a level of access.
ghost use Rattle.std.specs.Prelude.{◌≡◌, None, Some, codes};
ghost use Rattle.clap.specs.Matches.{first_value, found_of};
ghost use Rattle.opc_answers.specs.declared.question.Asks.TheVariants as asks;
ghost use Rattle.opc_names.specs.Spellings.{classes, levels, lookup};
ghost use Rattle.opc_cli_words.specs.Checks.{AreReadAs, IsReadAs};
ghost use Rattle.opc_cli_words.specs.Options.{
  class_option,
  console_option,
  given,
  has_levels,
  level_option,
  question_checks,
  resource_option,
  user_option,
};
ghost use Rattle.opc_cli_words.specs.Tasks.{IsTaskOf};

use crate::asking::need_access;
use crate::flag::{form_in, is_set};
use crate::mistake::{Mistake, Opt};
use crate::source::source_in;
use clap::ArgMatches;
use opc_answers::question::{About, Asks, Question};
use opc_cli_tasks::question::{Ask, PolicyQuestion};
use opc_cli_tasks::task::Task;
use opc_names::class::Class;
use opc_names::level::Level;
use opc_names::name::{ConsoleName, Resource, UserId};

/// The user who is given.
pub(crate) fn user_in(chosen: &ArgMatches<'_>) -> Result<UserId, Mistake>
    ensures { IsReadAs (λ user. user ≡ given (first_value (found_of chosen.now)) (codes "user"))
        (user_option (first_value (found_of chosen.now))) result }
{
    match UserId::read(chosen.get_str("user").unwrap_or("")) {
        Ok(user) => Ok(user),
        Err(_) => Err(Mistake::Unread(Opt::User)),
    }
}

/// The class that is given.
pub(crate) fn class_in(chosen: &ArgMatches<'_>) -> Result<Class, Mistake>
    ensures { IsReadAs (λ class. lookup classes (given (first_value (found_of chosen.now)) (codes "class")) ≡ Some
        class) (class_option (first_value (found_of chosen.now))) result }
{
    match Class::read(chosen.get_str("class").unwrap_or("")) {
        Some(class) => Ok(class),
        None => Err(Mistake::Unread(Opt::Class)),
    }
}

/// The resource that is given.
pub(crate) fn resource_in(chosen: &ArgMatches<'_>) -> Result<Resource, Mistake>
    ensures { IsReadAs (λ resource. resource ≡ given (first_value (found_of chosen.now)) (codes "resource"))
        (resource_option (first_value (found_of chosen.now))) result }
{
    match Resource::read(chosen.get_str("resource").unwrap_or("")) {
        Ok(resource) => Ok(resource),
        Err(_) => Err(Mistake::Unread(Opt::Resource)),
    }
}

/// The console that is named, if one is.
pub(crate) fn console_in(chosen: &ArgMatches<'_>) -> Result<Option<ConsoleName>, Mistake>
    ensures { IsReadAs (λ console. console ≡ first_value (found_of chosen.now) (codes "console"))
        (console_option (first_value (found_of chosen.now))) result }
{
    let Some(text) = chosen.get_str("console") else {
        return Ok(None);
    };
    match ConsoleName::read(text) {
        Ok(console) => Ok(Some(console)),
        Err(_) => Err(Mistake::Unread(Opt::Console)),
    }
}

/// The level that is given.
pub(crate) fn level_in(chosen: &ArgMatches<'_>) -> Result<Level, Mistake>
    ensures { IsReadAs (λ level. lookup levels (given (first_value (found_of chosen.now)) (codes "level")) ≡ Some level)
        (level_option (first_value (found_of chosen.now))) result }
{
    match Level::read(chosen.get_str("level").unwrap_or("")) {
        Some(level) => Ok(level),
        None => Err(Mistake::Unread(Opt::Level)),
    }
}

/// Whether the actor may, and why. JSON always has the level that is held behind each pattern.
pub(crate) fn why_asked(chosen: &ArgMatches<'_>, actor: Option<UserId>) -> Asks
    ensures { result ≡ asks.Why actor (has_levels (first_value (found_of chosen.now))) }
{
    let (why, json) = (is_set(chosen, "why"), is_set(chosen, "json"));
    Asks::Why {
        actor,
        levels: why || json,
    }
}

/// The question of these arguments about a level of access, or the first mistake in their options.
pub(crate) fn access_question<'a>(chosen: &ArgMatches<'a>) -> Result<Task<'a>, Mistake>
    requires { first_value (found_of chosen.now) (codes "command") ≡ None }
    ensures { AreReadAs (IsTaskOf (first_value (found_of chosen.now)) (codes "explain"))
        (question_checks (first_value (found_of chosen.now)) None) result }
{
    let user = user_in(chosen)?;
    let kind = chosen.get_str("as");
    need_access(kind, chosen.get_str("resource"), chosen.get_str("level"))?;
    let class = class_in(chosen)?;
    let resource = resource_in(chosen)?;
    let console = console_in(chosen)?;
    let level = level_in(chosen)?;
    let source = source_in(chosen)?;
    let question = Question {
        about: About::Access {
            class,
            resource,
            level,
        },
        console,
        asks: why_asked(chosen, Some(user)),
    };
    let form = form_in(chosen);
    Ok(Task::Ask(source, PolicyQuestion::Ask(Ask { question, form })))
}
