//! The lines of notes on rows of tables, which nobody has numbered: they show the row itself.
ghost use Rattle.std.specs.Prelude.{◌≡◌, IfOk, string_bytes};
ghost use Rattle.std.specs.List.{flat_map};
ghost use Rattle.std.specs.Option.{option_copied, option_map};
ghost use Rattle.opc_cli_questions.specs.StoredNotes.{fields_of, line_with, stored_line, stored_place};

use crate::noted::place_of;
use crate::shown_rows::{row_of, shown_row};
use opc_check::form::Form;
use opc_check_notes::note::Note;
use opc_check_notes::text::{note_json, note_text};
use opc_policy_members::row::Row;
use std::alloc::{AllocError, Global};

/// The row that a note is about, if it is about one.
fn fields_of(alloc: Global, rows: &[Row], row: Option<u64>) -> Result<Option<String>, AllocError>
    ensures { IfOk result (λ fields. option_map (λ text. string_bytes text) fields ≡ fields_of rows.now row) }
{
    let Some(number) = row else {
        return Ok(None);
    };
    match row_of(rows, number) {
        Some(row) => Ok(Some(shown_row(alloc, row)?)),
        None => Ok(None),
    }
}

/// What names the row of a note.
fn stored_place(alloc: Global, row: Option<u64>, fields: Option<&str>) -> Result<String, AllocError>
    ensures { IfOk result (λ text. string_bytes text ≡ stored_place row (option_copied fields.entry)) }
{
    match (row, fields) {
        (Some(row), Some(fields)) => format!(in alloc; " row {row} ({fields}): "),
        // The note is about no row; or only the number of its row is known.
        (row, _) => place_of(alloc, &[], row),
    }
}

fn line_with(
    alloc: Global,
    form: Form,
    fields: Option<&str>,
    note: &Note,
) -> Result<String, AllocError>
    ensures { IfOk result (λ line. string_bytes line ≡ line_with form (option_copied fields.entry) note.now) }
{
    match form {
        Form::Text => {
            let place = stored_place(alloc, note.row, fields)?;
            note_text(alloc, place.as_str(), note)
        }
        Form::Json => note_json(alloc, None, fields, note),
    }
}

fn stored_line(alloc: Global, form: Form, rows: &[Row], note: &Note) -> Result<String, AllocError>
    ensures { IfOk result (λ line. string_bytes line ≡ stored_line form rows.now note.now) }
{
    match fields_of(alloc, rows, note.row)? {
        Some(fields) => line_with(alloc, form, Some(fields.as_str()), note),
        None => line_with(alloc, form, None, note),
    }
}

/// A line for each note on rows of tables.
pub(crate) fn stored_lines(
    alloc: Global,
    form: Form,
    rows: &[Row],
    list: &[Note],
) -> Result<String, AllocError>
    ensures { IfOk result (λ told. string_bytes told ≡ flat_map (stored_line form rows.now) list.now) }
{
    let mut told = String::new(alloc);
    for note in list {
        let line = stored_line(alloc, form, rows, note)?;
        told.push_str(line.as_str())?;
    }
    Ok(told)
}
