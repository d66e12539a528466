//! The last line of a check, and the line of a file without a header.
ghost use Rattle.std.specs.Prelude.{◌≡◌, IfOk, codes, string_bytes};
ghost use Rattle.serde_json.specs.View.{view};
ghost use Rattle.opc_check.specs.Counted.{header_line, rows_word, share_line, share_value, verb};
ghost use Rattle.opc_check.specs.declared.form.Form.TheVariants as form_is;

use crate::form::Form;
use crate::lines::{bad_object, row_line, value_line};
use serde_json::{Value, json};
use std::alloc::{AllocError, Global};

/// A line about row 0, the header.
pub fn header_line(alloc: Global, form: Form, text: &str) -> Result<String, AllocError>
    ensures { IfOk result (λ line. string_bytes line ≡ header_line form text.now) }
{
    match form {
        Form::Text => row_line(alloc, 0, None, text),
        Form::Json => bad_object(alloc, 0, None, None, text),
    }
}

fn verb(n: usize) -> &'static str
    ensures { result.now ≡ verb n }
{
    if n == 1 { " is " } else { " are " }
}

/// A row, or rows.
pub fn rows_word(n: usize) -> &'static str
    ensures { result.now ≡ rows_word n }
{
    if n == 1 { " row" } else { " rows" }
}

fn share_text(alloc: Global, word: &str, some: usize, all: usize) -> Result<String, AllocError>
    ensures { IfOk result (λ line. string_bytes line ≡ share_line form_is.Text word.now some all) }
{
    let (rows, verb) = (rows_word(all), verb(some));
    format!(in alloc; "{some} of {all}{rows}{verb}{word}\n")
}

fn bad_value(alloc: Global, some: u64, all: u64) -> Result<Value, AllocError>
    ensures { IfOk result (λ value. view value ≡ share_value (codes "bad") some all) }
{
    json!(in alloc; {"bad": some, "rows": all})
}

fn refused_value(alloc: Global, some: u64, all: u64) -> Result<Value, AllocError>
    ensures { IfOk result (λ value. view value ≡ share_value (codes "refused") some all) }
{
    json!(in alloc; {"refused": some, "rows": all})
}

/// How many of the rows are bad.
pub(crate) fn bad_line(
    alloc: Global,
    form: Form,
    some: usize,
    all: usize,
) -> Result<String, AllocError>
    ensures { IfOk result (λ line. string_bytes line ≡ share_line form (codes "bad") some all) }
{
    match form {
        Form::Text => share_text(alloc, "bad", some, all),
        Form::Json => value_line(alloc, &bad_value(alloc, some as u64, all as u64)?),
    }
}

/// How many of the rows are refused.
pub(crate) fn refused_line(
    alloc: Global,
    form: Form,
    some: usize,
    all: usize,
) -> Result<String, AllocError>
    ensures { IfOk result (λ line. string_bytes line ≡ share_line form (codes "refused") some all) }
{
    match form {
        Form::Text => share_text(alloc, "refused", some, all),
        Form::Json => value_line(alloc, &refused_value(alloc, some as u64, all as u64)?),
    }
}
