//! The line of a row.
ghost use Rattle.std.specs.Prelude.{◌≡◌, ◌≤◌, ◌++◌, ℕ, List, IfOk, OnOk, codes, string_bytes, true};
ghost use Rattle.serde_json.specs.View.{view};
ghost use Rattle.serde_json.specs.Written.{compact_text};
ghost use Rattle.opc_cli_failures.specs.Escaped.{escaped};
ghost use Rattle.opc_account.specs.Lines.{IsRowLine, columns_line, padded, row_text, row_value};

use opc_cli_failures::escaped::{escaped_text, has_unprintable};
use opc_state::account::AccountRow;
use opc_times::time::time_text;
use serde_json::{Value, json};
use std::alloc::{AllocError, Global};

/// The names of the columns.
pub const HEADER: &str = "NUMBER TIME                 CONSOLE  USER     CODE RULE\n";

/// As many as the widest column has characters.
const SPACES: [u8; 20] = [b' '; 20];

/// Adds a column: a text, spaces up to its width, and one more.
#[tactic(auto, using(crate::proofs::Padded::padding))]
fn push_column(line: &mut Vec<u8>, text: &[u8], width: usize) -> Result<(), AllocError>
    requires { width ≤ 20 }
    ensures { OnOk result (line.new.items ≡ line.old.items ++ (padded width text.now ++ codes " ")) }
{
    line.extend_from_slice(text)?;
    line.extend_from_slice(&SPACES[..width.saturating_sub(text.len())])?;
    line.extend_from_slice(b" ")?;
    Ok(())
}

/// Adds a text in which nothing ends the line, and nothing acts on a terminal. Only rows that another program wrote
/// have texts that are not added as they are.
#[tactic(auto, using(opc_cli_failures::proofs::Escaping::printable_stay))]
fn push_text(alloc: Global, line: &mut Vec<u8>, text: &str) -> Result<(), AllocError>
    ensures { OnOk result (line.new.items ≡ line.old.items ++ escaped text.now) }
{
    if has_unprintable(text) {
        line.extend_from_slice(escaped_text(alloc, text)?.as_bytes())
    } else {
        line.extend_from_slice(text.as_bytes())
    }
}

/// Adds a column with such a text.
#[tactic(auto, using(opc_cli_failures::proofs::Escaping::printable_stay))]
fn push_text_column(
    alloc: Global,
    line: &mut Vec<u8>,
    text: &str,
    width: usize,
) -> Result<(), AllocError>
    requires { width ≤ 20 }
    ensures { OnOk result (line.new.items ≡ line.old.items ++ (padded width (escaped text.now) ++ codes " ")) }
{
    if has_unprintable(text) {
        push_column(line, escaped_text(alloc, text)?.as_bytes(), width)
    } else {
        push_column(line, text.as_bytes(), width)
    }
}

/// Adds a row under the header.
fn push_columns(
    alloc: Global,
    line: &mut Vec<u8>,
    time: &str,
    number: u64,
    row: &AccountRow,
) -> Result<(), AllocError>
    ensures { OnOk result (line.new.items ≡ line.old.items ++ columns_line time.now (number, row.now)) }
{
    push_column(line, number.to_string(alloc)?.as_bytes(), 6)?;
    push_column(line, time.as_bytes(), 20)?;
    push_text_column(alloc, line, row.console.as_str(), 8)?;
    push_text_column(alloc, line, row.user.as_str(), 8)?;
    push_text_column(alloc, line, row.code.as_str(), 4)?;
    push_text(alloc, line, row.rule.as_str())?;
    line.extend_from_slice(b"\n")
}

fn row_value(alloc: Global, time: &str, number: u64, row: &AccountRow) -> Result<Value, AllocError>
    ensures { IfOk result (λ value. view value ≡ row_value time.now (number, row.now)) }
{
    let moment = row.moment;
    let (code, console) = (row.code.as_str(), row.console.as_str());
    let (rule, user) = (row.rule.as_str(), row.user.as_str());
    json!(in alloc; {
        "code": code,
        "console": console,
        "moment": moment,
        "number": number,
        "rule": rule,
        "time": time,
        "user": user
    })
}

/// Adds a row as JSON.
fn push_json(
    alloc: Global,
    text: &mut Vec<u8>,
    time: &str,
    number: u64,
    row: &AccountRow,
) -> Result<(), AllocError>
    ensures { OnOk result (text.new.items ≡ text.old.items ++ row_text true time.now (number, row.now)) }
{
    let json = json_text(alloc, time, number, row)?;
    text.extend_from_slice(json.as_bytes())?;
    text.extend_from_slice(b"\n")
}

fn json_text(alloc: Global, time: &str, number: u64, row: &AccountRow) -> Result<String, AllocError>
    ensures { IfOk result (λ text. string_bytes text ≡ compact_text (row_value time.now (number, row.now))) }
{
    let value = row_value(alloc, time, number, row)?;
    value.to_string(alloc)
}

/// Adds the line of a row.
pub(crate) fn push_row(
    alloc: Global,
    text: &mut Vec<u8>,
    is_json: bool,
    number: u64,
    row: &AccountRow,
) -> Result<(), AllocError>
    ensures { OnOk result ((line : List ℕ) × IsRowLine is_json (number, row.now) line
        × (text.new.items ≡ text.old.items ++ line)) }
{
    let time = time_text(alloc, row.moment)?;
    if is_json {
        push_json(alloc, text, time.as_str(), number, row)
    } else {
        push_columns(alloc, text, time.as_str(), number, row)
    }
}
