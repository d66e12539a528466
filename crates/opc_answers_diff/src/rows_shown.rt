//! The rows of two exports that differ, as lines.
ghost use Rattle.std.specs.Prelude.{◌≡◌, IfOk, string_bytes};
ghost use Rattle.std.specs.List.{flat_map};
ghost use Rattle.serde_json.specs.View.{view};
ghost use Rattle.opc_answers_diff.specs.RowTexts.{
  change_json,
  change_text,
  digest_in,
  digest_words,
  row_json,
  row_line,
  row_value,
  words_after,
  words_before,
};

use crate::row_changes::RowChange;
use crate::row_text::row_text;
use opc_answers::json::json_line;
use opc_policy_members::row::Row;
use opc_policy_members::user::User;
use serde_json::{Value, json};
use std::alloc::{AllocError, Global};

/// The digest of a user.
fn digest_in(row: &Option<Row>) -> Option<[u8; 32]>
    ensures { result ≡ digest_in row.now }
{
    match row {
        Some(Row::User(User { digest, .. })) => *digest,
        // No other row has a digest.
        _ => None,
    }
}

/// Whether there is a digest, and another than before.
fn digest_words(digest: Option<[u8; 32]>, before: Option<[u8; 32]>) -> &'static str
    ensures { result.now ≡ digest_words digest before }
{
    match (digest, before) {
        (None, _) => "",
        (Some(_), None) => "(digest)",
        (Some(digest), Some(other)) => {
            if digest == other {
                "(digest)"
            } else {
                "(another digest)"
            }
        }
    }
}

fn words_before(change: &RowChange) -> &'static str
    ensures { result.now ≡ words_before change.now }
{
    digest_words(digest_in(&change.before), None)
}

fn words_after(change: &RowChange) -> &'static str
    ensures { result.now ≡ words_after change.now }
{
    digest_words(digest_in(&change.after), digest_in(&change.before))
}

/// The line of one side, behind its mark, if there is a row.
fn row_line(
    alloc: Global,
    mark: &str,
    digest: &str,
    row: &Option<Row>,
) -> Result<String, AllocError>
    ensures { IfOk result (λ text. string_bytes text ≡ row_line mark.now digest.now row.now) }
{
    let Some(row) = row else {
        return Ok(String::new(alloc));
    };
    let text = row_text(alloc, row, digest)?;
    let text = text.as_str();
    format!(in alloc; "{mark} {text}\n")
}

fn change_text(alloc: Global, change: &RowChange) -> Result<String, AllocError>
    ensures { IfOk result (λ text. string_bytes text ≡ change_text change.now) }
{
    let mut text = row_line(alloc, "-", words_before(change), &change.before)?;
    let after = row_line(alloc, "+", words_after(change), &change.after)?;
    text.push_str(after.as_str())?;
    Ok(text)
}

/// A line for each side of each of these places.
pub fn rows_text(alloc: Global, changes: &[RowChange]) -> Result<String, AllocError>
    ensures { IfOk result (λ text. string_bytes text ≡ flat_map change_text changes.now) }
{
    let mut text = String::new(alloc);
    for change in changes {
        text.push_str(change_text(alloc, change)?.as_str())?;
    }
    Ok(text)
}

fn row_value(alloc: Global, mark: &str, row: &str) -> Result<Value, AllocError>
    ensures { IfOk result (λ value. view value ≡ row_value mark.now row.now) }
{
    json!(in alloc; {"change": mark, "kind": "row", "row": row})
}

#[tactic(auto, using(crate::proofs::Floats::row_so))]
fn row_json(
    alloc: Global,
    mark: &str,
    digest: &str,
    row: &Option<Row>,
) -> Result<String, AllocError>
    ensures { IfOk result (λ text. string_bytes text ≡ row_json mark.now digest.now row.now) }
{
    let Some(row) = row else {
        return Ok(String::new(alloc));
    };
    let text = row_text(alloc, row, digest)?;
    let value = row_value(alloc, mark, text.as_str())?;
    json_line(alloc, &value)
}

fn change_json(alloc: Global, change: &RowChange) -> Result<String, AllocError>
    ensures { IfOk result (λ text. string_bytes text ≡ change_json change.now) }
{
    let mut text = row_json(alloc, "-", words_before(change), &change.before)?;
    let after = row_json(alloc, "+", words_after(change), &change.after)?;
    text.push_str(after.as_str())?;
    Ok(text)
}

/// The same as JSON, an object for each line.
pub fn rows_json(alloc: Global, changes: &[RowChange]) -> Result<String, AllocError>
    ensures { IfOk result (λ text. string_bytes text ≡ flat_map change_json changes.now) }
{
    let mut text = String::new(alloc);
    for change in changes {
        text.push_str(change_json(alloc, change)?.as_str())?;
    }
    Ok(text)
}
