//! The answer of a policy file, and how it is printed.
ghost use Rattle.std.specs.Prelude.{◌≡◌, IfErr, IfOk, OnOk, string_bytes};
ghost use Rattle.std.specs.Io.KnownBytes.{Appends};
ghost use Rattle.opc_answers.specs.Answers.{CanBePrinted};
ghost use Rattle.opc_cli_failures.specs.Statuses.{IsFailure};
ghost use Rattle.opc_cli_questions.specs.Printed.{IsAnsweredBy, IsReportedBy, IsWritten, left_in, status_of_verdict};
ghost use Rattle.opc_cli_questions.specs.Questions.{IsQuestionAnswer, shown, status_of, status_of_why, why_shown};

use crate::asking::{unanswered, unanswered_by};
use crate::openings::Openings;
use crate::policy_file::{PolicyText, paths_of, place_of, read_rows_from};
use crate::printing::{no_memory, nothing_text, print_text};
use crate::who_printing::print_who;
use opc_answers::answer::{PolicyAnswer, answer_of};
use opc_answers::why::Explanation;
use opc_check::form::Form;
use opc_cli_failures::failure::{Failure, Place, reported};
use opc_cli_failures::status::Status;
use opc_cli_tasks::question::Ask;
use opc_io::sink::Sink;
use opc_policy::verdict::Verdict;
use opc_policy_members::row::Row;
use std::alloc::{AllocError, Global};
use std::io::{Read, Write};

/// Answers a question by the policy file at a path, or by the one on the input, and returns the status.
pub fn answer_question<F: Openings, R: Read, W: Write, K: Sink>(
    alloc: Global,
    files: &F,
    policy: Option<&str>,
    ask: &Ask<'_>,
    input: &mut R,
    output: &mut W,
    errors: &mut K,
) -> Status
    ensures { IsReportedBy W.contents K.held K.has_failed output.old output.new errors.old errors.new
        (IsQuestionAnswer ask.now) (left_in (F.holds files.now) (R.remaining input.old) policy.entry) result }
{
    let end = answer_by(alloc, files, policy, ask, input, output);
    reported(end, &paths_of(policy), errors)
}

fn answer_by<F: Openings, R: Read, W: Write>(
    alloc: Global,
    files: &F,
    policy: Option<&str>,
    ask: &Ask<'_>,
    input: &mut R,
    output: &mut W,
) -> Result<Status, Failure>
    ensures { IsAnsweredBy W.contents output.old output.new (IsQuestionAnswer ask.now)
        (left_in (F.holds files.now) (R.remaining input.old) policy.entry) result }
{
    let file = read_rows_from(alloc, files, policy, input)?;
    print_by(alloc, place_of(policy), &file, ask, output)
}

/// Prints the answer of the rows of a policy file, or which row is refused.
fn print_by<W: Write>(
    alloc: Global,
    place: Place,
    file: &PolicyText,
    ask: &Ask<'_>,
    output: &mut W,
) -> Result<Status, Failure>
    ensures { IsWritten W.contents output.old output.new (IsQuestionAnswer ask.now file.now.rows.items) result }
{
    match answer_of(alloc, file.rows.as_slice(), &ask.question) {
        Ok(answer) => print_answer(alloc, &answer, ask.form, output),
        Err(fault) => Err(unanswered_by(alloc, place, file, &ask.question, fault)),
    }
}

/// Prints the answer of the rows of a policy.
pub(crate) fn print_ask<W: Write>(
    alloc: Global,
    rows: &[Row],
    ask: &Ask<'_>,
    output: &mut W,
) -> Result<Status, Failure>
    ensures { IsWritten W.contents output.old output.new (IsQuestionAnswer ask.now rows.now) result }
{
    match answer_of(alloc, rows, &ask.question) {
        Ok(answer) => print_answer(alloc, &answer, ask.form, output),
        Err(fault) => Err(unanswered(alloc, rows, &ask.question, fault)),
    }
}

fn why_shown(alloc: Global, why: &Explanation, form: Form) -> Result<String, AllocError>
    ensures { IfOk result (λ text. string_bytes text ≡ why_shown form why.now) }
{
    match form {
        Form::Text => why.text(alloc),
        Form::Json => why.json(alloc),
    }
}

fn print_why<W: Write>(
    alloc: Global,
    why: &Explanation,
    form: Form,
    output: &mut W,
) -> Result<(), Failure>
    ensures text { OnOk result (Appends (W.contents output.old) (W.contents output.new) (why_shown form why.now)) }
    ensures fails { IfErr result (λ failure. IsFailure failure.fault) }
{
    let Ok(text) = why_shown(alloc, why, form) else {
        return Err(no_memory());
    };
    print_text(text.as_str(), output)
}

fn print_shown<W: Write>(
    alloc: Global,
    answer: &PolicyAnswer,
    form: Form,
    output: &mut W,
) -> Result<(), Failure>
    requires { CanBePrinted answer.now }
    ensures text { OnOk result (Appends (W.contents output.old) (W.contents output.new) (shown form answer.now)) }
    ensures fails { IfErr result (λ failure. IsFailure failure.fault) }
{
    match answer {
        PolicyAnswer::Nothing => print_text(nothing_text(form), output),
        PolicyAnswer::Why(why) => print_why(alloc, why, form, output),
        PolicyAnswer::Who(who, allowed) => print_who(alloc, form, *allowed, who, output),
    }
}

fn status_of_verdict(verdict: Verdict) -> Status
    ensures { result ≡ status_of_verdict verdict }
{
    match verdict {
        Verdict::Denied => Status::Refused,
        Verdict::Allowed | Verdict::Undecided => Status::Done,
    }
}

/// Whatever is said in the place of a verdict is that the user may not.
fn status_of_why(why: &Explanation) -> Status
    ensures { result ≡ status_of_why why.now.verdict why.now.instead }
{
    match why.instead {
        Some(_) => Status::Refused,
        None => status_of_verdict(why.verdict),
    }
}

fn status_of(answer: &PolicyAnswer) -> Status
    ensures { result ≡ status_of answer.now }
{
    match answer {
        PolicyAnswer::Why(why) => status_of_why(why),
        PolicyAnswer::Nothing | PolicyAnswer::Who(..) => Status::Done,
    }
}

/// Prints an answer, and returns its status.
pub(crate) fn print_answer<W: Write>(
    alloc: Global,
    answer: &PolicyAnswer,
    form: Form,
    output: &mut W,
) -> Result<Status, Failure>
    requires { CanBePrinted answer.now }
    ensures text { IfOk result (λ _. Appends (W.contents output.old) (W.contents output.new)
        (shown form answer.now)) }
    ensures status { IfOk result (λ status. status ≡ status_of answer.now) }
    ensures fails { IfErr result (λ failure. IsFailure failure.fault) }
{
    print_shown(alloc, answer, form, output)?;
    Ok(status_of(answer))
}
