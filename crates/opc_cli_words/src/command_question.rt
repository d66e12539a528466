//! The arguments of `opcmds explain` about a command.
ghost use Rattle.std.specs.Prelude.{◌≡◌, ◌∷◌, [], Some, codes, is_some};
ghost use Rattle.clap.specs.Matches.{first_value, found_of};
ghost use Rattle.opc_cli_words.specs.Checks.{AreReadAs, IsReadAs};
ghost use Rattle.opc_cli_words.specs.Options.{
  actor_of,
  actor_option,
  console_option,
  given,
  nobody_option,
  question_checks,
};
ghost use Rattle.opc_cli_words.specs.Tasks.{IsTaskOf};

use crate::asking::{kind_beside, place_logon};
use crate::flag::form_in;
use crate::mistake::{Mistake, Opt};
use crate::question::{console_in, why_asked};
use crate::quotes::need_quotes;
use crate::source::source_in;
use clap::ArgMatches;
use opc_answers::needed::is_logon;
use opc_answers::question::{About, Question};
use opc_cli_tasks::question::{Ask, PolicyQuestion};
use opc_cli_tasks::task::Task;
use opc_names::name::{ConsoleName, UserId};

/// The user who enters the command, or nobody, written `-`. Nobody logs on for nobody.
fn actor_in(chosen: &ArgMatches<'_>, command: &str) -> Result<Option<UserId>, Mistake>
    ensures { IsReadAs (λ user. user ≡ actor_of (given (first_value (found_of chosen.now)) (codes "user")))
        (actor_option (first_value (found_of chosen.now)) command.now) result }
{
    match chosen.get_str("user").unwrap_or("") {
        "-" if is_logon(command) => Err(Mistake::Unread(Opt::User)),
        "-" => Ok(None),
        text => match UserId::read(text) {
            Ok(user) => Ok(Some(user)),
            Err(_) => Err(Mistake::Unread(Opt::User)),
        },
    }
}

/// The console that is named. `-`, for nobody, needs a console.
fn console_for(chosen: &ArgMatches<'_>, is_somebody: bool) -> Result<Option<ConsoleName>, Mistake>
    requires { is_somebody ≡ is_some (actor_of (given (first_value (found_of chosen.now)) (codes "user"))) }
    ensures { AreReadAs (λ console. console ≡ first_value (found_of chosen.now) (codes "console"))
        (console_option (first_value (found_of chosen.now)) ∷ nobody_option (first_value (found_of chosen.now)) ∷ [])
        result }
{
    let console = console_in(chosen)?;
    if !is_somebody && console.is_none() {
        return Err(Mistake::NobodyAlone);
    }
    Ok(console)
}

/// The question of these arguments about the command that is given, or the first mistake in their options.
pub(crate) fn command_question<'a>(
    chosen: &ArgMatches<'a>,
    text: &'a str,
) -> Result<Task<'a>, Mistake>
    requires { first_value (found_of chosen.now) (codes "command") ≡ Some text.now }
    ensures { AreReadAs (IsTaskOf (first_value (found_of chosen.now)) (codes "explain"))
        (question_checks (first_value (found_of chosen.now)) (Some text.entry.now)) result }
{
    let user = actor_in(chosen, text)?;
    let kind = chosen.get_str("as");
    let kind = kind_beside(kind, chosen.get_str("resource"), chosen.get_str("level"))?;
    let console = console_for(chosen, user.is_some())?;
    need_quotes(chosen)?;
    let source = source_in(chosen)?;
    place_logon(Some(text), &console)?;
    let question = Question {
        about: About::Command { text, kind },
        console,
        asks: why_asked(chosen, user),
    };
    let form = form_in(chosen);
    Ok(Task::Ask(source, PolicyQuestion::Ask(Ask { question, form })))
}
