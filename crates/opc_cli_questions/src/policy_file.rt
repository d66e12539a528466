//! Policy files, from any reader.
ghost use Rattle.std.specs.Prelude.{◌≡◌, ◌⊎◌, IfErr, IfOk, IsErrAnd};
ghost use Rattle.std.specs.Option.{option_map};
ghost use Rattle.opc_import.specs.Faults.{as_fault};
ghost use Rattle.opc_cli_failures.specs.Statuses.{IsFailure};
ghost use Rattle.opc_cli_questions.specs.Printed.{left_in};
ghost use Rattle.opc_cli_questions.specs.PolicyFiles.{AreRead, AreReadFrom, IsNoPolicyFile, IsNoText, IsPolicyFile, IsUnread};
ghost use Rattle.opc_cli_questions.specs.Refusals.{line_in};

use crate::openings::Openings;
use crate::streams::read_up_to;
use opc_check::first_bad;
use opc_check::problem::RowProblem;
use opc_check::row_lines::{line_of, row_lines};
use opc_check::unread::{POLICY_LIMIT, header_text, not_utf8, too_long};
use opc_cli_failures::failure::{Failure, Paths, Place};
use opc_cli_failures::reason::Reason;
use opc_import::fault::ImportFault;
use opc_import::read::read_policy;
use opc_names::name::ConsoleName;
use opc_policy_members::row::Row;
use opc_terms::fault::{Fault, Why};
use std::alloc::{AllocError, Global};
use std::io::Read;
use std::str;

/// A policy file that was read: its bytes, and its rows.
#[derive(Drop)]
pub struct PolicyText {
    pub bytes: Vec<u8>,
    pub rows: Vec<Row>,
}

/// The line of a text on which a row begins, if it has this row.
fn line_in(alloc: Global, text: &str, row: u64) -> Result<Option<u64>, AllocError>
    ensures { IfOk result (λ line. line ≡ line_in text.now row) }
{
    let lines = row_lines(alloc, text)?;
    Ok(line_of(&lines, row))
}

/// The reason why a row of a text is invalid or refused.
pub(crate) fn row_reason(
    alloc: Global,
    text: &str,
    problem: RowProblem,
) -> Result<Reason, AllocError>
    ensures { IfOk result (λ reason. reason ≡ Reason.Row problem (line_in text.now problem.number)) }
{
    let line = line_in(alloc, text, problem.number)?;
    Ok(Reason::Row(problem, line))
}

/// Bytes that are no text of a policy file, in words.
fn no_text(place: Place, words: &'static str) -> Failure
    ensures { result.fault ≡ Fault.RowFault 0 Why.Header }
{
    let fault = Fault::RowFault {
        row: 0,
        why: Why::Header,
    };
    Failure::of(fault, place, Reason::NoText(words))
}

/// The fault of a header that is wrong or missing, with what stands in its place, if there is memory to show it.
fn header_fault(alloc: Global, place: Place, text: &str) -> Failure
    ensures { result.fault ≡ Fault.RowFault 0 Why.Header }
{
    let fault = Fault::RowFault {
        row: 0,
        why: Why::Header,
    };
    match header_text(alloc, text) {
        Ok(words) => Failure::of(fault, place, Reason::NoHeader(words)),
        Err(_) => Failure::from(fault),
    }
}

/// What is wrong with the first bad row of a text, if it has one.
fn bad_reason(alloc: Global, text: &str) -> Result<Option<Reason>, AllocError> {
    match first_bad(alloc, text)? {
        Some(problem) => Ok(Some(row_reason(alloc, text, problem)?)),
        None => Ok(None),
    }
}

/// The fault of a row, with what is wrong with it, unless an allocation fails.
fn row_fault(alloc: Global, place: Place, text: &str, row: u32, why: Why) -> Failure
    ensures { result.fault ≡ Fault.RowFault row why }
{
    let fault = Fault::RowFault { row, why };
    match bad_reason(alloc, text) {
        Ok(Some(reason)) => Failure::of(fault, place, reason),
        // The text is known to have a bad row; if an allocation fails, the row is not reported.
        Ok(None) | Err(_) => Failure::from(fault),
    }
}

/// The fault of a file's text.
fn fault_in(alloc: Global, place: Place, text: &str, fault: ImportFault) -> Failure
    ensures { result.fault ≡ as_fault fault }
{
    match fault {
        ImportFault::Row {
            row: 0,
            why: Why::Header,
        } => header_fault(alloc, place, text),
        ImportFault::Row { row, why } => row_fault(alloc, place, text, row, why),
        ImportFault::NoMemory => Failure::from(Fault::NoMemory),
    }
}

/// The rows of the policy file that some bytes are.
fn rows_in(alloc: Global, place: Place, bytes: &[u8]) -> Result<Vec<Row>, Failure>
    ensures rows { IfOk result (λ rows. IsPolicyFile bytes.now rows.items) }
    ensures fault { IfErr result (λ failure. IsFailure failure.fault ⊎ IsNoPolicyFile bytes.now failure.fault) }
    ensures exact { IfErr result (λ failure.
        (failure.fault ≡ Fault.NoMemory) ⊎ IsNoPolicyFile bytes.now failure.fault) }
    ensures no_text { IsNoText bytes.now → IsErrAnd result (λ failure. failure.fault ≡ Fault.RowFault 0 Why.Header) }
{
    if bytes.len() > POLICY_LIMIT as usize {
        return Err(no_text(place, too_long()));
    }
    let Ok(text) = str::from_utf8(bytes) else {
        return Err(no_text(place, not_utf8(bytes)));
    };
    // Named for the prover, which otherwise cannot infer the type of a row's console.
    let _nowhere: Option<ConsoleName> = None;
    read_policy(alloc, text).map_err(|fault| fault_in(alloc, place, text, fault))
}

/// The policy file that a reader gives.
pub fn read_rows<R: Read>(alloc: Global, place: Place, input: &mut R) -> Result<PolicyText, Failure>
    ensures rows { IfOk result (λ file. AreRead (R.remaining input.old) file.rows.items) }
    ensures bytes { IfOk result (λ file. AreReadFrom (R.remaining input.old) file.bytes.items file.rows.items) }
    ensures fault { IfErr result (λ failure. IsUnread (R.remaining input.old) failure.fault) }
{
    let bytes = match read_up_to(alloc, input, POLICY_LIMIT) {
        Ok(bytes) => bytes,
        Err(error) => return Err(Failure::at(place, error)),
    };
    // Named for the prover, which otherwise cannot infer the type of a row's console.
    let _nowhere: Option<ConsoleName> = None;
    let rows = rows_in(alloc, place, &bytes)?;
    Ok(PolicyText { bytes, rows })
}

/// The policy file at a path.
pub fn read_rows_at<F: Openings>(
    alloc: Global,
    files: &F,
    path: &str,
) -> Result<PolicyText, Failure>
    ensures rows { IfOk result (λ file. AreRead (F.holds files.now path.now) file.rows.items) }
    ensures bytes { IfOk result (λ file. AreReadFrom (F.holds files.now path.now) file.bytes.items file.rows.items) }
    ensures fault { IfErr result (λ failure. IsUnread (F.holds files.now path.now) failure.fault) }
{
    match files.open_to_read(path) {
        Ok(mut file) => read_rows(alloc, Place::PolicyFile, &mut file),
        Err(error) => Err(Failure::at(Place::PolicyFile, error)),
    }
}

/// The policy file at a path, or the one on the input.
pub fn read_rows_from<F: Openings, R: Read>(
    alloc: Global,
    files: &F,
    policy: Option<&str>,
    input: &mut R,
) -> Result<PolicyText, Failure>
    ensures rows { IfOk result (λ file. AreRead
        (left_in (F.holds files.now) (R.remaining input.old) policy.entry) file.rows.items) }
    ensures bytes { IfOk result (λ file. AreReadFrom
        (left_in (F.holds files.now) (R.remaining input.old) policy.entry) file.bytes.items file.rows.items) }
    ensures fault { IfErr result (λ failure. IsUnread
        (left_in (F.holds files.now) (R.remaining input.old) policy.entry) failure.fault) }
{
    // Named for the prover, which otherwise cannot infer the type of a row's console.
    let _nowhere: Option<ConsoleName> = None;
    match policy {
        Some(path) => read_rows_at(alloc, files, path),
        None => read_rows(alloc, Place::Input, input),
    }
}

/// Where such a policy file is.
pub fn place_of(policy: Option<&str>) -> Place {
    match policy {
        Some(_) => Place::PolicyFile,
        None => Place::Input,
    }
}

/// The paths that a message about it names.
pub fn paths_of<'a>(policy: Option<&'a str>) -> Paths<'a> {
    Paths {
        database: None,
        policy,
        socket: None,
        log: None,
        policies: None,
    }
}
