//! The line of a request of a run in a log.
ghost use Rattle.std.specs.Prelude.{◌≡◌, ◌++◌, IfOk, OnOk};
ghost use Rattle.opc_cli_log.specs.RunLines.{
  IsRunLine,
  IsRunText,
  console_text,
  logged,
  outcome_text,
  what_text,
  who_text,
  words_of,
};

use opc_cli_script::event_text::event_text;
use opc_http_log::escape::printable;
use opc_http_log::line::{
    answer_code, answer_reason, push_field, row_text, status_text, user_text,
};
use opc_http_log::words::{shown, shown_request};
use opc_http_responses::status::status_of;
use opc_machine::request::{Answer, Request};
use opc_names::name::UserId;
use opc_terms::store_fault::StoreFault;
use opc_times::time::time_text;
use std::alloc::{AllocError, Global};

/// The console of a request; that of an event is `*`.
fn console_text(request: &Request) -> &str
    ensures { result.now ≡ console_text request.now }
{
    match request {
        Request::Command { console, .. }
        | Request::Admin { console, .. }
        | Request::ListProfiles { console, .. }
        | Request::ListAccount { console, .. }
        | Request::Import { console, .. } => console.text(),
        Request::Event(_) => "*",
    }
}

/// What is shown of a request: of an event its text, as a script has it.
fn words_of(alloc: Global, request: &Request) -> Result<Vec<u8>, AllocError>
    ensures { IfOk result (λ words. words.items ≡ words_of request.now) }
{
    match request {
        Request::Event(event) => {
            let text = event_text(alloc, event)?;
            shown(alloc, text.as_str().as_bytes())
        }
        // All others come over HTTP too.
        _ => shown_request(alloc, request),
    }
}

/// Adds the console, and for whom it acted.
fn push_who(
    line: &mut Vec<u8>,
    request: &Request,
    user: &Result<Option<UserId>, StoreFault>,
) -> Result<(), AllocError>
    ensures { OnOk result (line.new.items ≡ line.old.items ++ who_text request.now user.now) }
{
    push_field(line, console_text(request).as_bytes())?;
    push_field(line, user_text(user).as_bytes())
}

/// Adds the outcome: the status that a response would have, and the code.
fn push_outcome(alloc: Global, line: &mut Vec<u8>, answer: &Answer) -> Result<(), AllocError>
    ensures { OnOk result (line.new.items ≡ line.old.items ++ outcome_text answer.now) }
{
    let status = status_text(alloc, Some(status_of(answer).as_u16()))?;
    push_field(line, status.as_str().as_bytes())?;
    push_field(line, answer_code(answer).as_bytes())
}

/// Adds what was requested, why it came to that, and the row of the account.
fn push_what(
    alloc: Global,
    line: &mut Vec<u8>,
    request: &Request,
    answer: &Answer,
    row: &Result<Option<u64>, StoreFault>,
) -> Result<(), AllocError>
    ensures { OnOk result (line.new.items ≡ line.old.items ++ what_text request.now answer.now row.now) }
{
    let words = words_of(alloc, request)?;
    push_field(line, words.as_slice())?;
    let reason = answer_reason(alloc, answer)?;
    line.extend_from_slice(reason.as_str().as_bytes())?;
    let row = row_text(alloc, row)?;
    line.extend_from_slice(row.as_str().as_bytes())
}

/// The text of a line, before bytes that are not printable are escaped.
fn run_text(
    alloc: Global,
    moment: u64,
    request: &Request,
    user: &Result<Option<UserId>, StoreFault>,
    answer: &Answer,
    row: &Result<Option<u64>, StoreFault>,
) -> Result<Vec<u8>, AllocError>
    ensures { IfOk result (λ text. IsRunText (logged moment request.now user.now answer.now row.now) text.items) }
{
    let time = time_text(alloc, moment)?;
    let mut text = Vec::new(alloc);
    push_field(&mut text, time.as_str().as_bytes())?;
    push_who(&mut text, request, user)?;
    push_outcome(alloc, &mut text, answer)?;
    push_what(alloc, &mut text, request, answer, row)?;
    Ok(text)
}

/// The line of a request that was handled at this time, with its line feed: the user for whom its console acted before
/// it, its answer, and the number of the row that the account got for it.
pub fn run_line(
    alloc: Global,
    moment: u64,
    request: &Request,
    user: &Result<Option<UserId>, StoreFault>,
    answer: &Answer,
    row: &Result<Option<u64>, StoreFault>,
) -> Result<Vec<u8>, AllocError>
    ensures { IfOk result (λ line. IsRunLine (logged moment request.now user.now answer.now row.now) line.items) }
{
    let text = run_text(alloc, moment, request, user, answer, row)?;
    let mut line = printable(alloc, text.as_slice())?;
    line.extend_from_slice(b"\n")?;
    Ok(line)
}
