//! The arguments of the command line.
ghost use Rattle.std.specs.Prelude.{◌≡◌, IfOk, codes, drop, false};
ghost use Rattle.clap.specs.Faults.{fault_of};
ghost use Rattle.clap.specs.Kinds.{FailsBy};
ghost use Rattle.clap.specs.Matches.{first_value, found_of};
ghost use Rattle.clap.specs.Simple.{subcommand_of, subcommand_rows_of};
ghost use Rattle.clap.specs.Values.{kind_of};
ghost use Rattle.opc_cli_failures.specs.Statuses.{IsFailure};
ghost use Rattle.opc_cli_words.specs.CommandLine.{command_line};
ghost use Rattle.opc_cli_words.specs.Reading.{
  AreRead,
  IsHelpReported,
  IsKindReported,
  IsMistakePrinted,
  IsTaskRead,
  IsReportedFailure,
  IsVersionReported,
  words_after,
};
ghost use Rattle.opc_cli_words.specs.Checks.{AreReadAs};
ghost use Rattle.opc_cli_words.specs.Tasks.{IsTaskOf, options_of};

use crate::account::account;
use crate::check::check;
use crate::command_line::command_line;
use crate::command_question::command_question;
use crate::decide::decide;
use crate::diff::diff;
use crate::import::import;
use crate::may::may;
use crate::mistake::{Mistake, print_mistake};
use crate::question::access_question;
use crate::run::run;
use crate::serve::serve;
use crate::sheet::sheet;
use crate::slip::note_slip;
use crate::source::database_in;
use crate::value::note_value;
use crate::version::write_version;
use crate::who::who;
use clap::error::ErrorKind;
use clap::{ArgMatches, Error};
use opc_cli_failures::failure::{Failure, NO_PATHS, Place};
use opc_cli_failures::status::Status;
use opc_cli_tasks::task::Task;
use opc_cli_tasks::work::Work;
use opc_io::sink::Sink;
use opc_io::watched::Watched;
use opc_terms::fault::Fault;
use std::alloc::Global;
use std::io::Write;

/// What the arguments ask for; the first is the program's own name. If they ask for help or the version, or are
/// invalid, that is reported, and the status is returned.
pub fn read_words<'a, W: Write, E: Write>(
    alloc: Global,
    words: &'a [String],
    output: &mut Watched<W>,
    errors: &mut Watched<E>,
) -> Result<Task<'a>, Status>
    ensures { AreRead (words_after words.entry.now) (λ w. W.contents w.inner) E.contents output.old output.new
        errors.old errors.new result }
{
    match matches_of(alloc, words) {
        Ok(matches) => task_of(&matches, errors),
        Err(error) => Err(report_words(words, &error, output, errors)),
    }
}

/// What `clap` finds in the arguments.
fn matches_of<'a>(alloc: Global, words: &'a [String]) -> Result<ArgMatches<'a>, Error>
    ensures found { IfOk result
        (λ found. subcommand_rows_of found ≡ subcommand_of command_line (words_after words.entry.now)) }
    ensures fails { FailsBy (fault_of command_line (words_after words.entry.now)) result }
{
    command_line(alloc)?.try_get_matches_from(after_first(words))
}

/// The arguments after the first, which is the program's own name.
fn after_first<'a>(words: &'a [String]) -> &'a [String]
    ensures { result.now ≡ drop 1 words.entry.now }
{
    match words.split_first() {
        Some((_, rest)) => rest,
        None => words,
    }
}

/// The task of what `clap` found. A mistake in the options is reported.
fn task_of<'a, E: Write>(
    matches: &ArgMatches<'a>,
    errors: &mut Watched<E>,
) -> Result<Task<'a>, Status>
    ensures { IsTaskRead E.contents errors.old errors.new (subcommand_rows_of matches.now) result }
{
    let Some((command, chosen)) = matches.subcommand() else {
        return Err(Status::BadInput);
    };
    match asked(command, chosen) {
        Ok(task) => Ok(task),
        Err(mistake) => {
            report_mistake(command, mistake, chosen, errors);
            Err(Status::BadInput)
        }
    }
}

/// What a command with these options asks for, or the first mistake in them.
fn asked<'a>(command: &str, chosen: &ArgMatches<'a>) -> Result<Task<'a>, Mistake>
    ensures { AreReadAs (IsTaskOf (first_value (found_of chosen.now)) command.now)
        (options_of (first_value (found_of chosen.now)) command.now) result }
{
    match command {
        "explain" => explain(chosen),
        "run" => run(chosen),
        "import" => import(chosen),
        "export" => Ok(Task::Work(database_in(chosen), Work::Export)),
        "serve" => serve(chosen),
        "who" => who(chosen),
        "check" => check(chosen),
        "account" => account(chosen),
        "digest" => Ok(Task::Digest),
        "commands" => Ok(Task::Commands),
        "may" => may(chosen),
        "diff" => Ok(diff(chosen)),
        "sheet" => sheet(chosen),
        "decide" => decide(chosen),
        // The command line has no other command.
        _ => Err(Mistake::NoCommand),
    }
}

/// What `explain` is asked: about a command or about a level of access.
fn explain<'a>(chosen: &ArgMatches<'a>) -> Result<Task<'a>, Mistake>
    ensures { AreReadAs (IsTaskOf (first_value (found_of chosen.now)) (codes "explain"))
        (options_of (first_value (found_of chosen.now)) (codes "explain")) result }
{
    match chosen.get_str("command") {
        Some(text) => command_question(chosen, text),
        None => access_question(chosen),
    }
}

/// Reports a mistake in the options of a command, and the valid values in the place of an invalid one.
fn report_mistake<K: Sink>(command: &str, mistake: Mistake, chosen: &ArgMatches<'_>, errors: &mut K)
    ensures { K.has_failed errors.new ≡ false
        → IsMistakePrinted (K.held errors.old) (K.held errors.new) command.now mistake }
{
    // The status reports the mistake even if nothing can be printed.
    let _ = print_mistake(command, mistake, errors);
    note_value(command, mistake, chosen, errors);
}

/// Prints what `clap` reports: help or the version to the output, a mistake to the errors.
fn report_words<W: Write, E: Write>(
    words: &[String],
    error: &Error,
    output: &mut Watched<W>,
    errors: &mut Watched<E>,
) -> Status
    ensures { IsKindReported (λ w. W.contents w.inner) E.contents output.old output.new errors.old errors.new
        (kind_of error.now) result }
{
    match error.kind() {
        ErrorKind::OutOfMemory => report_failure(&Failure::from(Fault::NoMemory), errors),
        ErrorKind::DisplayHelp => report_help(error, output, errors),
        ErrorKind::DisplayVersion => report_version(output, errors),
        // Every other kind is a mistake in the arguments.
        _ => {
            // The status reports the mistake even if it cannot be printed; whoever asks can see that it was not.
            errors.failed |= write!(errors.inner, "{error}").is_err();
            errors.failed |= note_slip(after_first(words), &mut errors.inner).is_err();
            Status::BadInput
        }
    }
}

fn report_help<W: Write, E: Write>(
    help: &Error,
    output: &mut Watched<W>,
    errors: &mut Watched<E>,
) -> Status
    ensures { IsHelpReported E.contents errors.old errors.new result }
{
    match write!(output.inner, "{help}") {
        Ok(()) => Status::Done,
        Err(error) => report_failure(&Failure::at(Place::Output, error), errors),
    }
}

fn report_version<W: Write, E: Write>(output: &mut Watched<W>, errors: &mut Watched<E>) -> Status
    ensures { IsVersionReported (λ w. W.contents w.inner) E.contents output.old output.new errors.old errors.new
        result }
{
    match write_version(&mut output.inner) {
        Ok(()) => Status::Done,
        Err(error) => report_failure(&Failure::at(Place::Output, error), errors),
    }
}

/// Reports that an allocation or the output failed.
fn report_failure<E: Write>(failure: &Failure, errors: &mut Watched<E>) -> Status
    requires { IsFailure failure.now.fault }
    ensures status { result ≡ Status.Failed }
    ensures reported { IsReportedFailure E.contents errors.old errors.new }
{
    failure.report(&NO_PATHS, errors)
}
