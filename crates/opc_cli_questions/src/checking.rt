//! A policy file, read and checked.
ghost use Rattle.std.specs.Prelude.{◌≡◌, IfErr, IfOk, string_bytes};
ghost use Rattle.std.specs.Io.KnownBytes.{Appends};
ghost use Rattle.std.specs.Option.{option_copied};
ghost use Rattle.opc_cli_failures.specs.Statuses.{IsFailure};
ghost use Rattle.opc_cli_questions.specs.Checks.{AreFirst, IsAnswer, IsAnswered, IsReportedCheck};
ghost use Rattle.opc_cli_questions.specs.Printed.{answered, left_in};

use crate::check_answer::answer_about;
use crate::openings::Openings;
use crate::policy_file::paths_of;
use crate::printing::{PrintedAnswer, print};
use crate::streams::read_up_to;
use opc_check::unread::POLICY_LIMIT;
use opc_cli_failures::failure::{Failure, Place, reported};
use opc_cli_failures::status::Status;
use opc_cli_tasks::question::PolicyCheck;
use opc_io::sink::Sink;
use opc_terms::fault::Fault;
use std::alloc::Global;
use std::io::{Read, Write};

/// Checks the policy file at a path, or the one on the input, and returns the status.
pub fn answer_check<F: Openings, R: Read, W: Write, K: Sink>(
    alloc: Global,
    files: &F,
    policy: Option<&str>,
    check: &PolicyCheck<'_>,
    input: &mut R,
    output: &mut W,
    errors: &mut K,
) -> Status
    ensures { IsReportedCheck W.contents K.held K.has_failed output.old output.new errors.old errors.new
        check.now.form (option_copied check.now.allowed)
        (left_in (F.holds files.now) (R.remaining input.old) policy.entry) result }
{
    let end = checked(alloc, files, policy, check, input, output);
    reported(end, &paths_of(policy), errors)
}

/// The bytes of a reader, up to one more than a policy file may have.
fn bytes_of<R: Read>(alloc: Global, place: Place, input: &mut R) -> Result<Vec<u8>, Failure>
    ensures bytes { IfOk result (λ bytes. AreFirst (R.remaining input.old) bytes.items) }
    ensures fault { IfErr result (λ failure. IsFailure failure.fault) }
{
    match read_up_to(alloc, input, POLICY_LIMIT) {
        Ok(bytes) => Ok(bytes),
        Err(error) => Err(Failure::at(place, error)),
    }
}

/// Those of the policy file at a path.
fn bytes_at<F: Openings>(alloc: Global, files: &F, path: &str) -> Result<Vec<u8>, Failure>
    ensures bytes { IfOk result (λ bytes. AreFirst (F.holds files.now path.now) bytes.items) }
    ensures fault { IfErr result (λ failure. IsFailure failure.fault) }
{
    match files.open_to_read(path) {
        Ok(mut file) => bytes_of(alloc, Place::PolicyFile, &mut file),
        Err(error) => Err(Failure::at(Place::PolicyFile, error)),
    }
}

/// Those of the policy file that is named, or of the one on the input.
fn read_bytes<F: Openings, R: Read>(
    alloc: Global,
    files: &F,
    policy: Option<&str>,
    input: &mut R,
) -> Result<Vec<u8>, Failure>
    ensures bytes { IfOk result (λ bytes. AreFirst
        (left_in (F.holds files.now) (R.remaining input.old) policy.entry) bytes.items) }
    ensures fault { IfErr result (λ failure. IsFailure failure.fault) }
{
    match policy {
        Some(path) => bytes_at(alloc, files, path),
        None => bytes_of(alloc, Place::Input, input),
    }
}

/// What is answered about some bytes, if there is memory for it.
fn answer_to(alloc: Global, check: &PolicyCheck<'_>, bytes: &[u8]) -> Result<PrintedAnswer, Failure>
    ensures answer { IfOk result (λ answer. IsAnswer check.now.form (option_copied check.now.allowed)
        bytes.now (answered (string_bytes answer.text) answer.status)) }
    ensures fault { IfErr result (λ failure. IsFailure failure.fault) }
{
    match answer_about(alloc, check.form, check.allowed, bytes) {
        Ok(answer) => Ok(answer),
        Err(_) => Err(Failure::from(Fault::NoMemory)),
    }
}

fn checked<F: Openings, R: Read, W: Write>(
    alloc: Global,
    files: &F,
    policy: Option<&str>,
    check: &PolicyCheck<'_>,
    input: &mut R,
    output: &mut W,
) -> Result<Status, Failure>
    ensures { IsAnswered W.contents output.old output.new check.now.form (option_copied check.now.allowed)
        (left_in (F.holds files.now) (R.remaining input.old) policy.entry) result }
{
    let bytes = read_bytes(alloc, files, policy, input)?;
    let answer = answer_to(alloc, check, &bytes)?;
    print(&answer, output)
}
