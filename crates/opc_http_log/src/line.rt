//! The line of an exchange in a log.
ghost use Rattle.std.specs.Prelude.{◌≡◌, ◌++◌, IfOk, Ok, OnOk, Some, string_bytes};
ghost use Rattle.opc_http_requests.specs.declared.refusal.InvalidPart.TheVariants as part;
ghost use Rattle.opc_http_log.specs.LogLines.{
  IsLineText,
  IsLogLine,
  IsPolicyText,
  code_text,
  console_text,
  details_text,
  field,
  fields_of,
  has_details,
  outcome_text,
  part_text,
  reason_text,
  refusal_code,
  refusal_text,
  refused_text,
  row_text,
  status_text,
  user_text,
  what_text,
  who_text,
  words_text,
};

use crate::entry::LogEntry;
use crate::escape::printable;
use crate::words::shown_request;
use opc_board::text::KeptText;
use opc_http_requests::body_key::BodyKey;
use opc_http_requests::refusal::{HttpRefusal, InvalidPart};
use opc_machine::request::{Answer, Request};
use opc_names::name::UserId;
use opc_policy_folder::fault::PolicyFault;
use opc_terms::fault::Fault;
use opc_terms::rule::Rule;
use opc_terms::store_fault::StoreFault;
use opc_times::time::time_text;
use std::alloc::{AllocError, Global};
use std::io;

/// What stands for nothing.
const NOTHING: &str = "-";

fn console_text(request: &Option<Request>) -> &str
    ensures { result.now ≡ console_text request.now }
{
    match request {
        Some(
            Request::Command { console, .. }
            | Request::Admin { console, .. }
            | Request::ListProfiles { console, .. }
            | Request::ListAccount { console, .. }
            | Request::Import { console, .. },
        ) => console.text(),
        Some(Request::Event(_)) | None => NOTHING,
    }
}

pub fn user_text(user: &Result<Option<UserId>, StoreFault>) -> &str
    ensures { result.now ≡ user_text user.now }
{
    match user {
        Ok(Some(id)) => id.text(),
        Ok(None) => NOTHING,
        Err(_) => "?",
    }
}

/// The code of a refusal of what is not a request.
pub fn refusal_code(refusal: &HttpRefusal) -> &'static str
    ensures { result.now ≡ refusal_code refusal.now }
{
    match refusal {
        HttpRefusal::BadRequest(_) => "H400",
        HttpRefusal::Forbidden => "H403",
        HttpRefusal::NotFound => "H404",
        HttpRefusal::MethodNotAllowed(_) => "H405",
        HttpRefusal::TooLarge => "H413",
        HttpRefusal::BadRow { .. } => "E60",
    }
}

/// The code of an answer, if it is a refusal.
pub fn answer_code(answer: &Answer) -> &str
    ensures { result.now ≡ code_text (Some (Ok answer.now)) }
{
    match answer {
        Answer::Refused { fault, .. } => fault.code(),
        Answer::Done { .. } => NOTHING,
    }
}

/// The code of the reply, if it is a refusal.
fn code_text(reply: &Option<Result<Answer, HttpRefusal>>) -> &str
    ensures { result.now ≡ code_text reply.now }
{
    match reply {
        Some(Ok(answer)) => answer_code(answer),
        Some(Err(refusal)) => refusal_code(refusal),
        None => NOTHING,
    }
}

/// Whether a fault names what stands in the way.
fn has_details(fault: &Fault) -> bool
    ensures { result ≡ has_details fault.now }
{
    match fault {
        Fault::AlreadyOn(_)
        | Fault::Exists(_)
        | Fault::Missing(_)
        | Fault::InUse(_)
        | Fault::RowFault { .. } => true,
        // The others name nothing, or a place in a command, which depends on how long a password is.
        _ => false,
    }
}

/// What a fault names.
fn details_text(alloc: Global, fault: &Fault) -> Result<String, AllocError>
    ensures { IfOk result (λ text. string_bytes text ≡ details_text fault.now) }
{
    if has_details(fault) {
        fault.text(alloc)
    } else {
        String::from_str(alloc, NOTHING)
    }
}

/// The rule that decided, or what the fault names, if none did.
fn refused_text(alloc: Global, fault: &Fault, rule: &Option<Rule>) -> Result<String, AllocError>
    ensures { IfOk result (λ text. string_bytes text ≡ refused_text fault.now rule.now) }
{
    match rule {
        Some(_) => Rule::text_or_none(alloc, rule.as_ref()),
        None => details_text(alloc, fault),
    }
}

fn missing_key_text(alloc: Global, key: BodyKey) -> Result<String, AllocError>
    ensures { IfOk result (λ text. string_bytes text ≡ part_text (part.MissingKey key)) }
{
    let name = key.text();
    format!(in alloc; "body: the key {name} is missing")
}

fn value_text(alloc: Global, key: BodyKey) -> Result<String, AllocError>
    ensures { IfOk result (λ text. string_bytes text ≡ part_text (part.Value key)) }
{
    let name = key.text();
    format!(in alloc; "body: the value of {name}")
}

/// Which part of a request is invalid. No value is shown: it may be a password or a digest.
fn part_text(alloc: Global, part: InvalidPart) -> Result<String, AllocError>
    ensures { IfOk result (λ text. string_bytes text ≡ part_text part) }
{
    match part {
        InvalidPart::Head => String::from_str(alloc, "head"),
        InvalidPart::Coding => String::from_str(alloc, "framing: Transfer-Encoding"),
        InvalidPart::Length => String::from_str(alloc, "framing: Content-Length"),
        InvalidPart::CutShort => String::from_str(alloc, "body: cut short"),
        InvalidPart::Console => String::from_str(alloc, "path: the console"),
        InvalidPart::Batch => String::from_str(alloc, "path: the batch"),
        InvalidPart::Class => String::from_str(alloc, "path: the class"),
        InvalidPart::First => String::from_str(alloc, "path: the first number"),
        InvalidPart::Count => String::from_str(alloc, "path: the count"),
        InvalidPart::Json => String::from_str(alloc, "body: not JSON"),
        InvalidPart::Object => String::from_str(alloc, "body: not an object"),
        InvalidPart::MissingKey(key) => missing_key_text(alloc, key),
        InvalidPart::Value(key) => value_text(alloc, key),
        InvalidPart::OtherKeys => String::from_str(alloc, "body: a key is not known"),
        InvalidPart::Utf8 => String::from_str(alloc, "body: not UTF-8"),
    }
}

/// The invalid part, or the bad row of a policy file.
fn refusal_text(alloc: Global, refusal: &HttpRefusal) -> Result<String, AllocError>
    ensures { IfOk result (λ text. string_bytes text ≡ refusal_text refusal.now) }
{
    match refusal {
        HttpRefusal::BadRow { row, why } => {
            let fault = Fault::RowFault {
                row: *row,
                why: *why,
            };
            details_text(alloc, &fault)
        }
        HttpRefusal::BadRequest(part) => part_text(alloc, *part),
        // The code of any other refusal says it all.
        _ => String::from_str(alloc, NOTHING),
    }
}

/// Why it came to an answer.
pub fn answer_reason(alloc: Global, answer: &Answer) -> Result<String, AllocError>
    ensures { IfOk result (λ text. string_bytes text ≡ reason_text (Some (Ok answer.now))) }
{
    match answer {
        Answer::Done { rule, .. } => Rule::text_or_none(alloc, rule.as_ref()),
        Answer::Refused { fault, rule } => refused_text(alloc, fault, rule),
    }
}

/// Why it came to what was replied.
fn reason_text(
    alloc: Global,
    reply: &Option<Result<Answer, HttpRefusal>>,
) -> Result<String, AllocError>
    ensures { IfOk result (λ text. string_bytes text ≡ reason_text reply.now) }
{
    match reply {
        Some(Ok(answer)) => answer_reason(alloc, answer),
        Some(Err(refusal)) => refusal_text(alloc, refusal),
        None => String::from_str(alloc, NOTHING),
    }
}

/// The row of the account, after a space, if there is one.
pub fn row_text(alloc: Global, row: &Result<Option<u64>, StoreFault>) -> Result<String, AllocError>
    ensures { IfOk result (λ text. string_bytes text ≡ row_text row.now) }
{
    match row {
        Ok(Some(number)) => format!(in alloc; " #{number}"),
        Ok(None) => String::from_str(alloc, ""),
        Err(_) => String::from_str(alloc, " #?"),
    }
}

/// The words of the system for an error, without its number.
fn system_words(alloc: Global, error: io::Error) -> Result<String, AllocError> {
    let words = format!(in alloc; "{error}")?;
    match words.as_str().split_once(" (os error ") {
        Some((text, _)) => String::from_str(alloc, text),
        None => String::from_str(alloc, words.as_str()),
    }
}

/// Why a state of the policy is not in its folder.
fn policy_fault_text(alloc: Global, fault: PolicyFault) -> Result<String, AllocError> {
    match fault {
        PolicyFault::System(error) => system_words(alloc, error),
        PolicyFault::Gate(fault) => String::from_str(alloc, fault.code()),
    }
}

/// The name of the state of the policy that was brought into its folder, or why it was not, after a space.
fn policy_text(
    alloc: Global,
    policy: &Result<Option<KeptText>, PolicyFault>,
) -> Result<String, AllocError>
    ensures { IfOk result (λ text. IsPolicyText policy.now (string_bytes text)) }
{
    match policy {
        Ok(Some(name)) => {
            let name = name.as_str();
            format!(in alloc; " POLICY {name}")
        }
        Ok(None) => Ok(String::new(alloc)),
        Err(fault) => {
            let reason = policy_fault_text(alloc, *fault)?;
            format!(in alloc; " POLICY - {reason}")
        }
    }
}

/// Adds a field and a space.
pub fn push_field(line: &mut Vec<u8>, text: &[u8]) -> Result<(), AllocError>
    ensures { OnOk result (line.new.items ≡ line.old.items ++ field text.now) }
{
    line.extend_from_slice(text)?;
    line.extend_from_slice(b" ")
}

pub fn status_text(alloc: Global, status: Option<u16>) -> Result<String, AllocError>
    ensures { IfOk result (λ text. string_bytes text ≡ status_text status) }
{
    match status {
        Some(number) => number.to_string(alloc),
        None => String::from_str(alloc, NOTHING),
    }
}

fn words_text(alloc: Global, request: &Option<Request>) -> Result<Vec<u8>, AllocError>
    ensures { IfOk result (λ text. text.items ≡ words_text request.now) }
{
    match request {
        Some(request) => shown_request(alloc, request),
        None => Ok(String::from_str(alloc, NOTHING)?.into_bytes()),
    }
}

/// Adds the console, and for whom it acted.
fn push_who(line: &mut Vec<u8>, entry: &LogEntry) -> Result<(), AllocError>
    ensures { OnOk result (line.new.items ≡ line.old.items ++ who_text entry.now) }
{
    push_field(line, console_text(&entry.request).as_bytes())?;
    push_field(line, user_text(&entry.user).as_bytes())
}

/// Adds the outcome.
fn push_outcome(alloc: Global, line: &mut Vec<u8>, entry: &LogEntry) -> Result<(), AllocError>
    ensures { OnOk result (line.new.items ≡ line.old.items ++ outcome_text entry.now) }
{
    let status = status_text(alloc, entry.status)?;
    push_field(line, status.as_str().as_bytes())?;
    push_field(line, code_text(&entry.reply).as_bytes())
}

/// Adds what was requested, why it came to that, and the row of the account.
fn push_what(alloc: Global, line: &mut Vec<u8>, entry: &LogEntry) -> Result<(), AllocError>
    ensures { OnOk result (line.new.items ≡ line.old.items ++ what_text entry.now) }
{
    let words = words_text(alloc, &entry.request)?;
    push_field(line, words.as_slice())?;
    let reason = reason_text(alloc, &entry.reply)?;
    line.extend_from_slice(reason.as_str().as_bytes())?;
    let row = row_text(alloc, &entry.row)?;
    line.extend_from_slice(row.as_str().as_bytes())
}

fn push_fields(alloc: Global, line: &mut Vec<u8>, entry: &LogEntry) -> Result<(), AllocError>
    ensures { OnOk result (line.new.items ≡ line.old.items ++ fields_of entry.now) }
{
    push_who(line, entry)?;
    push_outcome(alloc, line, entry)?;
    push_what(alloc, line, entry)
}

/// The text of a line, before bytes that are not printable are escaped.
fn line_text(alloc: Global, entry: &LogEntry) -> Result<Vec<u8>, AllocError>
    ensures { IfOk result (λ text. IsLineText entry.now text.items) }
{
    let time = time_text(alloc, entry.moment)?;
    let mut text = Vec::new(alloc);
    push_field(&mut text, time.as_str().as_bytes())?;
    push_fields(alloc, &mut text, entry)?;
    let policy = policy_text(alloc, &entry.policy)?;
    text.extend_from_slice(policy.as_str().as_bytes())?;
    Ok(text)
}

/// The line of an exchange, with its line feed.
pub fn log_line(alloc: Global, entry: &LogEntry) -> Result<Vec<u8>, AllocError>
    ensures { IfOk result (λ line. IsLogLine entry.now line.items) }
{
    let text = line_text(alloc, entry)?;
    let mut line = printable(alloc, text.as_slice())?;
    line.extend_from_slice(b"\n")?;
    Ok(line)
}
