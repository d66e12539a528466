//! The texts of notes.
ghost use Rattle.std.specs.Prelude.{◌≡◌, IfOk, string_bytes};
ghost use Rattle.std.specs.Option.{option_copied};
ghost use Rattle.serde_json.specs.View.{view};
ghost use Rattle.opc_check_notes.specs.Texts.{note_json, note_text, note_value, number_value};

use crate::note::Note;
use crate::phrases::finding_text;
use serde_json::{Value, json};
use std::alloc::{AllocError, Global};

/// A note as a line: its code, what names the row that it is about, and what was found.
pub fn note_text(alloc: Global, place: &str, note: &Note) -> Result<String, AllocError>
    ensures { IfOk result (λ text. string_bytes text ≡ note_text place.now note.now) }
{
    let found = finding_text(alloc, &note.finding)?;
    let (code, found) = (note.finding.code().text(), found.as_str());
    format!(in alloc; "{code}{place}{found}\n")
}

fn number_value(number: Option<u64>) -> Value
    ensures { view result ≡ number_value number }
{
    match number {
        Some(number) => Value::from(number),
        None => Value::Null,
    }
}

fn note_value(
    alloc: Global,
    line: Option<u64>,
    fields: Option<&str>,
    note: &Note,
) -> Result<Value, AllocError>
    ensures { IfOk result (λ value. view value ≡ note_value line (option_copied fields.entry) note.now) }
{
    let found = finding_text(alloc, &note.finding)?;
    let (line, row) = (number_value(line), number_value(note.row));
    let (code, text) = (note.finding.code().text(), found.as_str());
    match fields {
        Some(fields) => {
            json!(in alloc; {"code": code, "fields": fields, "line": line, "row": row, "text": text})
        }
        None => json!(in alloc; {"code": code, "line": line, "row": row, "text": text}),
    }
}

/// A note as a JSON object on a line, with the line of its row, or with its fields.
#[tactic(auto, using(crate::proofs::Floats::note_so))]
pub fn note_json(
    alloc: Global,
    line: Option<u64>,
    fields: Option<&str>,
    note: &Note,
) -> Result<String, AllocError>
    ensures { IfOk result (λ text. string_bytes text ≡ note_json line (option_copied fields.entry) note.now) }
{
    let value = note_value(alloc, line, fields, note)?;
    let mut line = value.to_string(alloc)?;
    line.push_str("\n")?;
    Ok(line)
}
