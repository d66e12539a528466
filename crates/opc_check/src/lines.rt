//! Lines about problems of rows.
ghost use Rattle.std.specs.Prelude.{◌≡◌, ◌++◌, ◌∷◌, [], IfOk, None, codes, false, string_bytes};
ghost use Rattle.serde_json.specs.Data.{null, string};
ghost use Rattle.serde_json.specs.View.{view};
ghost use Rattle.serde_json.specs.Written.{compact_text, has_float};
ghost use Rattle.opc_check.specs.Lines.{
  bad_value,
  field_value,
  line_by,
  line_value,
  problem_line,
  problem_lines,
  refused_value,
  row_line,
  why_of,
};
ghost use Rattle.opc_check.specs.Problems.{problem_of, problems_of};
ghost use Rattle.opc_check.specs.declared.form.Form.TheVariants as form_is;

use crate::form::Form;
use crate::problem::RowProblem;
use crate::row_lines::{line_of, row_place};
use crate::words::column_of;
use opc_import::column::Column;
use opc_terms::fault::{Fault, Why};
use serde_json::{Value, json};
use std::alloc::{AllocError, Global};

/// A line about a row, for people.
pub(crate) fn row_line(
    alloc: Global,
    row: u64,
    line: Option<u64>,
    text: &str,
) -> Result<String, AllocError>
    ensures { IfOk result (λ made. string_bytes made ≡ row_line row line text.now) }
{
    let place = row_place(alloc, row, line)?;
    format!(in alloc; "{place}: {text}\n")
}

fn coded_line(
    alloc: Global,
    row: u64,
    line: Option<u64>,
    code: &str,
    text: &str,
) -> Result<String, AllocError>
    ensures { IfOk result (λ made. string_bytes made ≡ row_line row line (code.now ++ (codes " " ++ text.now))) }
{
    let told = format!(in alloc; "{code} {text}")?;
    row_line(alloc, row, line, told.as_str())
}

fn line_value(line: Option<u64>) -> Value
    ensures { view result ≡ line_value line }
{
    match line {
        Some(line) => Value::from(line),
        None => Value::Null,
    }
}

fn field_value(
    alloc: Global,
    row: u64,
    line: Option<u64>,
    field: &str,
    text: &str,
) -> Result<Value, AllocError>
    ensures { IfOk result (λ value. view value ≡ bad_value row line (string field.now) text.now) }
{
    let line = line_value(line);
    json!(in alloc; {"code": "E60", "field": field, "line": line, "row": row, "text": text})
}

fn row_value(alloc: Global, row: u64, line: Option<u64>, text: &str) -> Result<Value, AllocError>
    ensures { IfOk result (λ value. view value ≡ bad_value row line null text.now) }
{
    let line = line_value(line);
    json!(in alloc; {"code": "E60", "field": null, "line": line, "row": row, "text": text})
}

fn refused_value(
    alloc: Global,
    row: u64,
    line: Option<u64>,
    code: &str,
    text: &str,
) -> Result<Value, AllocError>
    ensures { IfOk result (λ value. view value ≡ refused_value code.now row line text.now) }
{
    let line = line_value(line);
    json!(in alloc; {"code": code, "line": line, "row": row, "text": text})
}

/// An object in a line of its own.
pub(crate) fn value_line(alloc: Global, value: &Value) -> Result<String, AllocError>
    ensures { IfOk result (λ line. has_float (view value.now) ≡ false
        → string_bytes line ≡ compact_text (view value.now) ++ 10 ∷ []) }
{
    let mut line = value.to_string(alloc)?;
    line.push_str("\n")?;
    Ok(line)
}

/// A line about a bad row, for programs.
pub(crate) fn bad_object(
    alloc: Global,
    row: u64,
    line: Option<u64>,
    column: Option<Column>,
    text: &str,
) -> Result<String, AllocError>
    ensures { IfOk result (λ made. string_bytes made
        ≡ compact_text (bad_value row line (field_value column) text.now) ++ 10 ∷ []) }
{
    match column {
        Some(column) => value_line(alloc, &field_value(alloc, row, line, column.name(), text)?),
        None => value_line(alloc, &row_value(alloc, row, line, text)?),
    }
}

fn refused_object(
    alloc: Global,
    row: u64,
    line: Option<u64>,
    code: &str,
    text: &str,
) -> Result<String, AllocError>
    ensures { IfOk result (λ made. string_bytes made ≡ line_by form_is.Json row line code.now text.now None) }
{
    value_line(alloc, &refused_value(alloc, row, line, code, text)?)
}

fn why_of(fault: &Fault) -> Option<Why>
    ensures { result ≡ why_of fault.now }
{
    match fault {
        Fault::RowFault { why, .. } => Some(*why),
        // All others are refusals.
        _ => None,
    }
}

fn problem_line(
    alloc: Global,
    form: Form,
    lines: &[u64],
    problem: &RowProblem,
) -> Result<String, AllocError>
    ensures { IfOk result (λ made. string_bytes made ≡ problem_line form lines.now (problem_of problem.now)) }
{
    let (row, code, text) = (problem.number, problem.fault.code(), problem.text.as_str());
    let line = line_of(lines, row);
    match (form, why_of(&problem.fault)) {
        (Form::Text, Some(_)) => row_line(alloc, row, line, text),
        (Form::Text, None) => coded_line(alloc, row, line, code, text),
        (Form::Json, Some(why)) => bad_object(alloc, row, line, column_of(why), text),
        (Form::Json, None) => refused_object(alloc, row, line, code, text),
    }
}

/// A line for each problem of rows that begin on these lines of their file.
pub(crate) fn problem_lines(
    alloc: Global,
    form: Form,
    lines: &[u64],
    problems: &[RowProblem],
) -> Result<String, AllocError>
    ensures { IfOk result (λ made. string_bytes made ≡ problem_lines form lines.now (problems_of problems.now)) }
{
    let mut told = String::new(alloc);
    for problem in problems {
        let line = problem_line(alloc, form, lines, problem)?;
        told.push_str(line.as_str())?;
    }
    Ok(told)
}
