//! Users of whom something else is said, as lines.
ghost use Rattle.std.specs.Prelude.{◌≡◌, IfOk, string_bytes};
ghost use Rattle.std.specs.List.{flat_map};
ghost use Rattle.serde_json.specs.View.{view};
ghost use Rattle.opc_answers_diff.specs.UsersShown.{
  change_json,
  change_text,
  change_value,
  said_value,
  side_text,
  side_value,
};

use crate::verdicts::UserChange;
use opc_answers::json::{held_value, json_line, place_value, rule_value, source_value};
use opc_answers::lines::UserLine;
use opc_answers::text::{user_text, verdict_word};
use serde_json::{Value, json};
use std::alloc::{AllocError, Global};

/// The line of one side, behind its mark, if the side has the user.
fn side_text(alloc: Global, mark: &str, line: &Option<UserLine>) -> Result<String, AllocError>
    ensures { IfOk result (λ text. string_bytes text ≡ side_text mark.now line.now) }
{
    let Some(line) = line else {
        return Ok(String::new(alloc));
    };
    let text = user_text(alloc, line)?;
    let text = text.as_str();
    format!(in alloc; "{mark} {text}")
}

fn change_text(alloc: Global, change: &UserChange) -> Result<String, AllocError>
    ensures { IfOk result (λ text. string_bytes text ≡ change_text change.now) }
{
    let mut text = side_text(alloc, "-", &change.before)?;
    text.push_str(side_text(alloc, "+", &change.after)?.as_str())?;
    Ok(text)
}

/// A line for each side of each of these users.
pub fn users_text(alloc: Global, changes: &[UserChange]) -> Result<String, AllocError>
    ensures { IfOk result (λ text. string_bytes text ≡ flat_map change_text changes.now) }
{
    let mut text = String::new(alloc);
    for change in changes {
        text.push_str(change_text(alloc, change)?.as_str())?;
    }
    Ok(text)
}

fn said_value(alloc: Global, line: &UserLine) -> Result<Value, AllocError>
    ensures { IfOk result (λ value. view value ≡ said_value line.now) }
{
    let place = place_value(alloc, &line.held)?;
    let held = held_value(alloc, &line.held)?;
    let rule = rule_value(alloc, &line.ruling, &line.instead)?;
    let source = source_value(alloc, &line.held)?;
    let verdict = verdict_word(&line.ruling, &line.instead);
    json!(in alloc; {"at": place, "held": held, "rule": rule, "source": source, "verdict": verdict})
}

fn side_value(alloc: Global, line: &Option<UserLine>) -> Result<Value, AllocError>
    ensures { IfOk result (λ value. view value ≡ side_value line.now) }
{
    match line {
        Some(line) => said_value(alloc, line),
        None => Ok(Value::Null),
    }
}

fn change_value(alloc: Global, change: &UserChange) -> Result<Value, AllocError>
    ensures { IfOk result (λ value. view value ≡ change_value change.now) }
{
    let after = side_value(alloc, &change.after)?;
    let before = side_value(alloc, &change.before)?;
    let id = change.id.text();
    json!(in alloc; {"after": after, "before": before, "id": id, "kind": "user"})
}

#[tactic(auto, using(crate::proofs::Floats::user_so))]
fn change_json(alloc: Global, change: &UserChange) -> Result<String, AllocError>
    ensures { IfOk result (λ text. string_bytes text ≡ change_json change.now) }
{
    let value = change_value(alloc, change)?;
    json_line(alloc, &value)
}

/// The same as JSON, an object for each user.
pub fn users_json(alloc: Global, changes: &[UserChange]) -> Result<String, AllocError>
    ensures { IfOk result (λ text. string_bytes text ≡ flat_map change_json changes.now) }
{
    let mut text = String::new(alloc);
    for change in changes {
        text.push_str(change_json(alloc, change)?.as_str())?;
    }
    Ok(text)
}
