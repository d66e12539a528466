//! What helps somebody whose question has no answer.
ghost use Rattle.std.specs.Prelude.{◌≡◌, IfOk, IfSome, Some, map, string_bytes};
ghost use Rattle.std.specs.Option.{option_map};
ghost use Rattle.opc_cli_questions.specs.Asking.{
  Helps,
  command_help,
  console_help,
  console_in,
  consoles_in,
  help_with,
  no_console,
  no_user,
  user_help,
  user_in,
  users_in,
};
ghost use Rattle.opc_cli_questions.specs.May.{HelpsMay, may_help};

use crate::policy_file::PolicyText;
use crate::refusals::refused;
use opc_answers::question::{About, Asks, Question};
use opc_cli_commands::{hint_about, nearest, question};
use opc_cli_failures::failure::{Failure, Place};
use opc_cli_failures::reason::Reason;
use opc_cli_tasks::question::MayQuestion;
use opc_names::name::{ConsoleName, UserId};
use opc_policy_members::row::Row;
use opc_terms::fault::Fault;
use std::alloc::{AllocError, Global};

/// The name of a user, if a row has one.
fn user_in(row: &Row) -> Option<&str>
    ensures { option_map (λ name. name.now) result ≡ user_in row.now }
{
    match row {
        Row::User(user) => Some(user.id.text()),
        // No other row makes a user.
        _ => None,
    }
}

/// The name of a console, if a row has one.
fn console_in(row: &Row) -> Option<&str>
    ensures { option_map (λ name. name.now) result ≡ console_in row.now }
{
    match row {
        Row::Console { name, .. } => Some(name.text()),
        // No other row makes a console.
        _ => None,
    }
}

fn users_in(alloc: Global, rows: &[Row]) -> Result<Vec<&str>, AllocError>
    ensures { IfOk result (λ names. map (λ name. name.now) names.items ≡ users_in rows.now) }
{
    let mut names = Vec::new(alloc);
    for row in rows {
        if let Some(name) = user_in(row) {
            names.push(name)?;
        }
    }
    Ok(names)
}

fn consoles_in(alloc: Global, rows: &[Row]) -> Result<Vec<&str>, AllocError>
    ensures { IfOk result (λ names. map (λ name. name.now) names.items ≡ consoles_in rows.now) }
{
    let mut names = Vec::new(alloc);
    for row in rows {
        if let Some(name) = console_in(row) {
            names.push(name)?;
        }
    }
    Ok(names)
}

fn no_user(alloc: Global, rows: &[Row], user: &UserId) -> Result<String, AllocError>
    ensures { IfOk result (λ text. string_bytes text ≡ no_user rows.now user.now) }
{
    let names = users_in(alloc, rows)?;
    let asked = question(alloc, nearest(user.text(), &names))?;
    format!(in alloc; "no such user{asked}")
}

fn no_console(alloc: Global, rows: &[Row], console: &ConsoleName) -> Result<String, AllocError>
    ensures { IfOk result (λ text. string_bytes text ≡ no_console rows.now console.now) }
{
    let names = consoles_in(alloc, rows)?;
    let asked = question(alloc, nearest(console.text(), &names))?;
    format!(in alloc; "no such console{asked}")
}

/// What helps with the command that is asked about.
fn command_help(alloc: Global, about: &About<'_>) -> Result<Option<String>, AllocError>
    ensures { IfOk result (λ help. IfSome help (λ text. command_help about.now ≡ Some (string_bytes text))) }
{
    match *about {
        About::Command { text, .. } => hint_about(alloc, text),
        About::Access { .. } => Ok(None),
    }
}

/// What helps with a user whom the rows lack.
fn user_help(alloc: Global, rows: &[Row], asks: &Asks) -> Result<Option<String>, AllocError>
    ensures { IfOk result (λ help. IfSome help (λ text. user_help rows.now asks.now ≡ Some (string_bytes text))) }
{
    match asks {
        Asks::Why {
            actor: Some(user),
            ..
        } => Ok(Some(no_user(alloc, rows, user)?)),
        Asks::Why { actor: None, .. } | Asks::Who { .. } => Ok(None),
    }
}

/// What helps with a console that the rows lack.
fn console_help(
    alloc: Global,
    rows: &[Row],
    console: &Option<ConsoleName>,
) -> Result<Option<String>, AllocError>
    ensures { IfOk result (λ help. IfSome help (λ text.
        console_help rows.now console.now ≡ Some (string_bytes text))) }
{
    match console {
        Some(console) => Ok(Some(no_console(alloc, rows, console)?)),
        None => Ok(None),
    }
}

fn help_with(
    alloc: Global,
    rows: &[Row],
    question: &Question<'_>,
    fault: &Fault,
) -> Result<Option<String>, AllocError>
    ensures { IfOk result (λ help. IfSome help (λ text.
        help_with rows.now question.now fault.now ≡ Some (string_bytes text))) }
{
    match fault {
        Fault::UnknownVerb { .. } | Fault::BadOperand { .. } => {
            command_help(alloc, &question.about)
        }
        Fault::Missing(_) => user_help(alloc, rows, &question.asks),
        Fault::NoConsole => console_help(alloc, rows, &question.console),
        // The code and the text of any other fault say enough.
        _ => Ok(None),
    }
}

/// The fault of a question that rows do not answer, with what helps whoever asked, if there is memory to find it.
pub(crate) fn unanswered(
    alloc: Global,
    rows: &[Row],
    question: &Question<'_>,
    fault: Fault,
) -> Failure
    ensures fault { result.fault ≡ fault }
    ensures cause { Helps rows.now question.now fault result.cause }
{
    let help = help_with(alloc, rows, question, &fault);
    match help {
        Ok(Some(help)) => Failure::of(fault, Place::Input, Reason::Hint(help)),
        Ok(None) | Err(_) => Failure { fault, cause: None },
    }
}

/// The fault of a question that the rows of a policy file do not answer, with the row that is refused, or else with
/// what helps whoever asked.
pub(crate) fn unanswered_by(
    alloc: Global,
    place: Place,
    file: &PolicyText,
    question: &Question<'_>,
    fault: Fault,
) -> Failure
    ensures { result.fault ≡ fault }
{
    let rows = file.rows.as_slice();
    let Failure { fault, cause } = refused(alloc, place, &file.bytes, &[], rows, fault);
    match cause {
        Some(cause) => Failure {
            fault,
            cause: Some(cause),
        },
        None => unanswered(alloc, rows, question, fault),
    }
}

/// What helps whoever asked what a user may.
fn may_help(
    alloc: Global,
    rows: &[Row],
    asked: &MayQuestion,
    fault: &Fault,
) -> Result<Option<String>, AllocError>
    ensures { IfOk result (λ help. IfSome help (λ text.
        may_help rows.now asked.now fault.now ≡ Some (string_bytes text))) }
{
    match fault {
        Fault::Missing(_) => Ok(Some(no_user(alloc, rows, &asked.user)?)),
        Fault::NoConsole => console_help(alloc, rows, &asked.console),
        // The code and the text of any other fault say enough.
        _ => Ok(None),
    }
}

/// The fault of such a question that rows do not answer, with what helps.
pub(crate) fn may_unanswered(
    alloc: Global,
    rows: &[Row],
    asked: &MayQuestion,
    fault: Fault,
) -> Failure
    ensures fault { result.fault ≡ fault }
    ensures cause { HelpsMay rows.now asked.now fault result.cause }
{
    let help = may_help(alloc, rows, asked, &fault);
    match help {
        Ok(Some(help)) => Failure::of(fault, Place::Input, Reason::Hint(help)),
        Ok(None) | Err(_) => Failure { fault, cause: None },
    }
}

/// The same of a policy file, with the row that is refused, or else with what helps.
pub(crate) fn may_unanswered_by(
    alloc: Global,
    place: Place,
    file: &PolicyText,
    asked: &MayQuestion,
    fault: Fault,
) -> Failure
    ensures { result.fault ≡ fault }
{
    let rows = file.rows.as_slice();
    let Failure { fault, cause } = refused(alloc, place, &file.bytes, &[], rows, fault);
    match cause {
        Some(cause) => Failure {
            fault,
            cause: Some(cause),
        },
        None => may_unanswered(alloc, rows, asked, fault),
    }
}
