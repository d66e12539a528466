//! Consoles of which something else is said, as lines.
ghost use Rattle.std.specs.Prelude.{◌≡◌, ◌≤◌, ◌∷◌, ◌++◌, [], IfOk, length, string_bytes};
ghost use Rattle.std.specs.List.{flat_map};
ghost use Rattle.std.specs.Str.{IsAscii};
ghost use Rattle.serde_json.specs.View.{view};
ghost use Rattle.opc_board.specs.Texts.{columns, left};
ghost use Rattle.opc_answers.specs.Json.{text_or_null};
ghost use Rattle.opc_answers_diff.specs.ConsolesShown.{
  actor_of,
  console_json,
  console_line,
  console_text,
  console_value,
  said_words,
};

use crate::consoles::{ConsoleChange, said_of};
use opc_answers::json::json_line;
use opc_board::rows::ConsoleRow;
use opc_terms::mode::Mode;
use serde_json::{Value, json};
use std::alloc::{AllocError, Global};

fn actor_of(mode: Mode) -> &'static str
    ensures text { result.now ≡ actor_of mode }
    ensures ascii { IsAscii result.now }
    ensures short { length result.now ≤ 1000 }
{
    match mode {
        Mode::Optional | Mode::Required => "NOBODY",
        Mode::Auto => "AUTO",
    }
}

#[tactic(auto, using(opc_board::proofs::Padding::padded_left))]
fn console_columns(
    alloc: Global,
    mark: &str,
    name: &str,
    actor: &str,
    said: &str,
) -> Result<String, AllocError>
    requires name { IsAscii name.now }
    requires name_short { length name.now ≤ 1000 }
    requires actor { IsAscii actor.now }
    requires actor_short { length actor.now ≤ 1000 }
    ensures { IfOk result (λ text. string_bytes text ≡ columns
        (mark.now ∷ (42 ∷ left 7 name.now) ∷ left 7 actor.now ∷ (said.now ++ 10 ∷ []) ∷ [])) }
{
    format!(in alloc; "{mark} *{name:<7} {actor:<7} {said}\n")
}

/// The line of one side, behind its mark, if the side has the console.
fn console_line(
    alloc: Global,
    mark: &str,
    console: &Option<ConsoleRow>,
) -> Result<String, AllocError>
    ensures { IfOk result (λ text. string_bytes text ≡ console_line mark.now console.now) }
{
    let Some(row) = console else {
        return Ok(String::new(alloc));
    };
    let said = said_of(alloc, console)?;
    console_columns(
        alloc,
        mark,
        row.name.text(),
        actor_of(row.mode),
        said.as_str(),
    )
}

fn console_text(alloc: Global, change: &ConsoleChange) -> Result<String, AllocError>
    ensures { IfOk result (λ text. string_bytes text ≡ console_text change.now) }
{
    let mut text = console_line(alloc, "-", &change.before)?;
    text.push_str(console_line(alloc, "+", &change.after)?.as_str())?;
    Ok(text)
}

/// A line for each side of each of these consoles.
pub fn consoles_text(alloc: Global, changes: &[ConsoleChange]) -> Result<String, AllocError>
    ensures { IfOk result (λ text. string_bytes text ≡ flat_map console_text changes.now) }
{
    let mut text = String::new(alloc);
    for change in changes {
        text.push_str(console_text(alloc, change)?.as_str())?;
    }
    Ok(text)
}

fn said_value(alloc: Global, console: &Option<ConsoleRow>) -> Result<Value, AllocError>
    ensures { IfOk result (λ value. view value ≡ text_or_null (said_words console.now)) }
{
    if console.is_none() {
        return Ok(Value::Null);
    }
    let said = said_of(alloc, console)?;
    Value::try_from_str(alloc, said.as_str())
}

fn console_value(alloc: Global, change: &ConsoleChange) -> Result<Value, AllocError>
    ensures { IfOk result (λ value. view value ≡ console_value change.now) }
{
    let after = said_value(alloc, &change.after)?;
    let before = said_value(alloc, &change.before)?;
    let id = change.name.text();
    json!(in alloc; {"after": after, "before": before, "id": id, "kind": "console"})
}

#[tactic(auto, using(crate::proofs::Floats::console_so))]
fn console_json(alloc: Global, change: &ConsoleChange) -> Result<String, AllocError>
    ensures { IfOk result (λ text. string_bytes text ≡ console_json change.now) }
{
    let value = console_value(alloc, change)?;
    json_line(alloc, &value)
}

/// The same as JSON, an object for each console.
pub fn consoles_json(alloc: Global, changes: &[ConsoleChange]) -> Result<String, AllocError>
    ensures { IfOk result (λ text. string_bytes text ≡ flat_map console_json changes.now) }
{
    let mut text = String::new(alloc);
    for change in changes {
        text.push_str(console_json(alloc, change)?.as_str())?;
    }
    Ok(text)
}
