//! What a user may, by a policy file or by rows.
ghost use Rattle.std.specs.Prelude.{Ok};
ghost use Rattle.opc_cli_questions.specs.May.{IsMayAnswer, IsMayWritten};
ghost use Rattle.opc_cli_questions.specs.Printed.{IsAnsweredBy, IsReportedBy, IsWritten, left_in};

use crate::asking::{may_unanswered, may_unanswered_by};
use crate::may_printing::print_may;
use crate::openings::Openings;
use crate::policy_file::{PolicyText, paths_of, place_of, read_rows_from};
use opc_answers_may::may::{May, may_of};
use opc_cli_failures::failure::{Failure, Place, reported};
use opc_cli_failures::status::Status;
use opc_cli_tasks::question::MayQuestion;
use opc_io::sink::Sink;
use opc_policy_members::row::Row;
use std::alloc::Global;
use std::io::{Read, Write};

/// Answers by the policy file at a path, or by the one on the input, what a user may, and returns the status.
pub fn answer_may<F: Openings, R: Read, W: Write, K: Sink>(
    alloc: Global,
    files: &F,
    policy: Option<&str>,
    asked: &MayQuestion,
    input: &mut R,
    output: &mut W,
    errors: &mut K,
) -> Status
    ensures { IsReportedBy W.contents K.held K.has_failed output.old output.new errors.old errors.new
        (IsMayAnswer asked.now) (left_in (F.holds files.now) (R.remaining input.old) policy.entry) result }
{
    let end = answer_by(alloc, files, policy, asked, input, output);
    reported(end, &paths_of(policy), errors)
}

fn answer_by<F: Openings, R: Read, W: Write>(
    alloc: Global,
    files: &F,
    policy: Option<&str>,
    asked: &MayQuestion,
    input: &mut R,
    output: &mut W,
) -> Result<Status, Failure>
    ensures { IsAnsweredBy W.contents output.old output.new (IsMayAnswer asked.now)
        (left_in (F.holds files.now) (R.remaining input.old) policy.entry) result }
{
    let file = read_rows_from(alloc, files, policy, input)?;
    print_by(alloc, place_of(policy), &file, asked, output)
}

/// Prints what the rows of a policy file say, or which row is refused.
fn print_by<W: Write>(
    alloc: Global,
    place: Place,
    file: &PolicyText,
    asked: &MayQuestion,
    output: &mut W,
) -> Result<Status, Failure>
    ensures { IsWritten W.contents output.old output.new (IsMayAnswer asked.now file.now.rows.items) result }
{
    let (rows, console) = (file.rows.as_slice(), asked.console.as_ref());
    match may_of(alloc, rows, &asked.user, console) {
        Ok(may) => print_answer(alloc, &may, asked, output),
        Err(fault) => Err(may_unanswered_by(alloc, place, file, asked, fault)),
    }
}

/// Prints what the rows of a policy say.
pub(crate) fn print_asked_may<W: Write>(
    alloc: Global,
    rows: &[Row],
    asked: &MayQuestion,
    output: &mut W,
) -> Result<Status, Failure>
    ensures { IsWritten W.contents output.old output.new (IsMayAnswer asked.now rows.now) result }
{
    match may_of(alloc, rows, &asked.user, asked.console.as_ref()) {
        Ok(may) => print_answer(alloc, &may, asked, output),
        Err(fault) => Err(may_unanswered(alloc, rows, asked, fault)),
    }
}

/// Prints an answer. Its status says that there is one, whatever the user may.
fn print_answer<W: Write>(
    alloc: Global,
    may: &May,
    asked: &MayQuestion,
    output: &mut W,
) -> Result<Status, Failure>
    ensures { IsWritten W.contents output.old output.new (IsMayWritten asked.now.form asked.now.allowed (Ok may.now))
        result }
{
    print_may(alloc, asked.form, asked.allowed, may, output)?;
    Ok(Status::Done)
}
