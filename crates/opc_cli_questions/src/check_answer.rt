//! The answer about the bytes of a policy file.
ghost use Rattle.std.specs.Prelude.{◌≡◌, IfOk, string_bytes};
ghost use Rattle.std.specs.Option.{option_copied};
ghost use Rattle.serde_json.specs.View.{view};
ghost use Rattle.opc_check.specs.Checked.{finding_of};
ghost use Rattle.opc_cli_questions.specs.Checks.{
  AnswersFound,
  IsAnswer,
  answer_of,
  good_line,
  good_value,
  noted,
  notes_word,
  status_with,
  whole,
};
ghost use Rattle.opc_cli_questions.specs.Printed.{answered};
ghost use Rattle.opc_check.specs.declared.form.Form.TheVariants as form_is;

use crate::noted::{kept_of, lines_of};
use crate::printing::PrintedAnswer;
use opc_check::checked::{Checked, check};
use opc_check::counted::{header_line, rows_word};
use opc_check::form::Form;
use opc_check::unread::{POLICY_LIMIT, not_utf8, too_long};
use opc_check_notes::notes::notes;
use opc_cli_failures::status::Status;
use opc_names::name::ConsoleName;
use opc_policy_members::row::Row;
use serde_json::{Value, json};
use std::alloc::{AllocError, Global};
use std::str;

/// What is wrong with all of a file.
fn whole(alloc: Global, form: Form, text: &str) -> Result<PrintedAnswer, AllocError>
    ensures { IfOk result (λ answer. answered (string_bytes answer.text) answer.status ≡ whole form text.now) }
{
    Ok(PrintedAnswer {
        text: header_line(alloc, form, text)?,
        status: Status::BadInput,
    })
}

fn good_value(alloc: Global, rows: u64, notes: u64) -> Result<Value, AllocError>
    ensures { IfOk result (λ value. view value ≡ good_value rows notes) }
{
    json!(in alloc; {"notes": notes, "rows": rows})
}

fn good_object(alloc: Global, rows: u64, notes: u64) -> Result<String, AllocError>
    ensures { IfOk result (λ line. string_bytes line ≡ good_line form_is.Json rows notes) }
{
    let value = good_value(alloc, rows, notes)?;
    let mut line = value.to_string(alloc)?;
    line.push_str("\n")?;
    Ok(line)
}

fn notes_word(n: usize) -> &'static str
    ensures { result.now ≡ notes_word n }
{
    if n == 1 { " note" } else { " notes" }
}

fn good_text(alloc: Global, rows: usize, notes: usize) -> Result<String, AllocError>
    ensures { IfOk result (λ line. string_bytes line ≡ good_line form_is.Text rows notes) }
{
    let (row, note) = (rows_word(rows), notes_word(notes));
    format!(in alloc; "{rows}{row}, {notes}{note}\n")
}

/// The last line if nothing is bad.
fn good_line(alloc: Global, form: Form, rows: usize, notes: usize) -> Result<String, AllocError>
    ensures { IfOk result (λ line. string_bytes line ≡ good_line form rows notes) }
{
    match form {
        Form::Text => good_text(alloc, rows, notes),
        Form::Json => good_object(alloc, rows as u64, notes as u64),
    }
}

/// The status if nothing is bad.
fn status_with(notes: usize) -> Status
    ensures { result ≡ status_with notes }
{
    if notes == 0 {
        Status::Done
    } else {
        Status::Refused
    }
}

/// The answer about rows that can be loaded, those of a text or of tables.
pub fn noted(
    alloc: Global,
    form: Form,
    allowed: Option<&str>,
    text: Option<&str>,
    rows: &[Row],
) -> Result<PrintedAnswer, AllocError>
    ensures { IfOk result (λ answer. answered (string_bytes answer.text) answer.status
        ≡ noted form (option_copied allowed.entry) (option_copied text.entry) rows.now) }
{
    // Named for the prover, which otherwise cannot infer the type of a row's console.
    let _nowhere: Option<ConsoleName> = None;
    let all = notes(alloc, rows)?;
    let kept = kept_of(alloc, allowed, all.as_slice())?;
    let told = kept.as_slice();
    let mut lines = lines_of(alloc, form, text, rows, told)?;
    let last = good_line(alloc, form, rows.len(), told.len())?;
    lines.push_str(last.as_str())?;
    Ok(PrintedAnswer {
        text: lines,
        status: status_with(told.len()),
    })
}

/// The answer about what was found in a text.
fn of_found(
    alloc: Global,
    form: Form,
    allowed: Option<&str>,
    text: &str,
    found: Checked,
) -> Result<PrintedAnswer, AllocError>
    ensures { IfOk result (λ answer. AnswersFound form (option_copied allowed.entry) text.now found
        (answered (string_bytes answer.text) answer.status)) }
{
    match found {
        Checked::Bad(lines) => Ok(PrintedAnswer {
            text: lines,
            status: Status::BadInput,
        }),
        Checked::Taken(rows, _) => noted(alloc, form, allowed, Some(text), &rows),
    }
}

fn of_text(
    alloc: Global,
    form: Form,
    allowed: Option<&str>,
    text: &str,
) -> Result<PrintedAnswer, AllocError>
    ensures { IfOk result (λ answer. answered (string_bytes answer.text) answer.status
        ≡ answer_of form (option_copied allowed.entry) text.now (finding_of form text.now)) }
{
    // Named for the prover, which otherwise cannot infer the type of a row's console.
    let _nowhere: Option<ConsoleName> = None;
    let found = check(alloc, text, form)?;
    of_found(alloc, form, allowed, text, found)
}

/// The answer about some bytes.
pub(crate) fn answer_about(
    alloc: Global,
    form: Form,
    allowed: Option<&str>,
    bytes: &[u8],
) -> Result<PrintedAnswer, AllocError>
    ensures { IfOk result (λ answer. IsAnswer form (option_copied allowed.entry) bytes.now
        (answered (string_bytes answer.text) answer.status)) }
{
    if bytes.len() > POLICY_LIMIT as usize {
        return whole(alloc, form, too_long());
    }
    match str::from_utf8(bytes) {
        Ok(text) => of_text(alloc, form, allowed, text),
        Err(_) => whole(alloc, form, not_utf8(bytes)),
    }
}
