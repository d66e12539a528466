//! The notes on a file that can be loaded, without those that are allowed.
ghost use Rattle.std.specs.Prelude.{◌≡◌, IfOk, filter, string_bytes};
ghost use Rattle.std.specs.List.{flat_map};
ghost use Rattle.std.specs.Option.{option_copied};
ghost use Rattle.opc_cli_questions.specs.Noted.{
  has_code,
  is_allowed,
  is_kept,
  is_of,
  line_of,
  note_line,
  place_of,
};
ghost use Rattle.opc_check.specs.RowLines.{row_lines};
ghost use Rattle.opc_cli_questions.specs.Checks.{noted_lines};

use crate::stored_notes::stored_lines;
use opc_check::form::Form;
use opc_check::row_lines::{line_of, row_lines, row_place};
use opc_check_notes::note::Note;
use opc_check_notes::text::{note_json, note_text};
use opc_policy_members::row::Row;
use opc_rows::Rows;
use std::alloc::{AllocError, Global};

/// Whether a code is these characters.
fn is_of(code: &[u8], n: u8, tens: u8, ones: u8) -> bool
    ensures { result ≡ is_of code.now n tens ones }
{
    match code {
        [first, second, third] => *first == n && *second == tens && *third == ones,
        // A code has three characters.
        _ => false,
    }
}

/// Whether a code is among codes with commas between them.
fn has_code(code: &[u8], text: &[u8]) -> bool
    ensures { result ≡ has_code code.now text.now }
{
    match text {
        [n, tens, ones] => is_of(code, *n, *tens, *ones),
        [n, tens, ones, _, rest @ ..] => is_of(code, *n, *tens, *ones) || has_code(code, rest),
        // Fewer than three characters are left: no code.
        _ => false,
    }
}

fn is_allowed(allowed: Option<&str>, code: &str) -> bool
    ensures { result ≡ is_allowed (option_copied allowed.entry) code.now }
{
    match allowed {
        Some(text) => has_code(code.as_bytes(), text.as_bytes()),
        None => false,
    }
}

fn is_kept(allowed: Option<&str>, note: &Note) -> bool
    ensures { result ≡ is_kept (option_copied allowed.entry) note.now }
{
    !is_allowed(allowed, note.finding.code().text())
}

/// The notes that are not allowed.
pub(crate) fn kept_of(
    alloc: Global,
    allowed: Option<&str>,
    list: &[Note],
) -> Result<Rows<Note>, AllocError>
    ensures { IfOk result (λ kept. kept ≡ filter (is_kept (option_copied allowed.entry)) list.now) }
{
    let mut kept = Rows::new(alloc);
    for note in list {
        if is_kept(allowed, note) {
            kept.push(*note)?;
        }
    }
    Ok(kept)
}

fn line_by(lines: &[u64], row: Option<u64>) -> Option<u64>
    ensures { result ≡ line_of lines.now row }
{
    match row {
        Some(row) => line_of(lines, row),
        None => None,
    }
}

/// What names the row of a note, if it is about one.
pub(crate) fn place_of(alloc: Global, lines: &[u64], row: Option<u64>) -> Result<String, AllocError>
    ensures { IfOk result (λ text. string_bytes text ≡ place_of lines.now row) }
{
    match row {
        Some(row) => {
            let place = row_place(alloc, row, line_of(lines, row))?;
            format!(in alloc; " {place}: ")
        }
        None => String::from_str(alloc, " "),
    }
}

fn note_line(alloc: Global, form: Form, lines: &[u64], note: &Note) -> Result<String, AllocError>
    ensures { IfOk result (λ line. string_bytes line ≡ note_line form lines.now note.now) }
{
    match form {
        Form::Text => note_text(alloc, place_of(alloc, lines, note.row)?.as_str(), note),
        Form::Json => note_json(alloc, line_by(lines, note.row), None, note),
    }
}

fn lines_on(alloc: Global, form: Form, lines: &[u64], list: &[Note]) -> Result<String, AllocError>
    ensures { IfOk result (λ told. string_bytes told ≡ flat_map (note_line form lines.now) list.now) }
{
    let mut told = String::new(alloc);
    for note in list {
        let line = note_line(alloc, form, lines, note)?;
        told.push_str(line.as_str())?;
    }
    Ok(told)
}

/// A line for each note on the rows of a text, which is searched for lines only if there is a note.
fn text_lines(alloc: Global, form: Form, text: &str, list: &[Note]) -> Result<String, AllocError>
    ensures { IfOk result (λ told. string_bytes told ≡ flat_map (note_line form (row_lines text.now)) list.now) }
{
    match list {
        [] => Ok(String::new(alloc)),
        // Some note is told.
        _ => {
            let lines = row_lines(alloc, text)?;
            lines_on(alloc, form, &lines, list)
        }
    }
}

/// A line for each note on the rows of a text or of tables.
pub(crate) fn lines_of(
    alloc: Global,
    form: Form,
    text: Option<&str>,
    rows: &[Row],
    list: &[Note],
) -> Result<String, AllocError>
    ensures { IfOk result (λ told. string_bytes told
        ≡ noted_lines form (option_copied text.entry) rows.now list.now) }
{
    match text {
        Some(text) => text_lines(alloc, form, text, list),
        None => stored_lines(alloc, form, rows, list),
    }
}
