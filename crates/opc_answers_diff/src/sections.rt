//! Sections: what decides on both sides, and of which users something else is said there.
ghost use Rattle.std.specs.Prelude.{◌≡◌, ◌++◌, ◌∷◌, IfOk, codes, string_bytes};
ghost use Rattle.std.specs.Option.{option_copied};
ghost use Rattle.serde_json.specs.View.{view};
ghost use Rattle.opc_names.specs.Spellings.{level_text};
ghost use Rattle.opc_answers.specs.Json.{json_line};
ghost use Rattle.opc_answers_diff.specs.Sections.{decides_at, section_json, section_text, section_value};

use crate::compared::Compared;
use crate::decides_shown::{decides_lines, profile_value};
use crate::users_shown::{users_json, users_text};
use crate::verdicts::UserChange;
use opc_answers::json::json_line;
use opc_answers_may::commands::FormsAsked;
use opc_answers_may::text::names_text;
use opc_answers_may::values::{commands_of, examples_of};
use opc_names::class::Class;
use opc_names::level::Level;
use opc_names::name::Resource;
use opc_policy_deciders::kind::AskedKind;
use opc_policy_members::profile::Profile;
use serde_json::{Value, json};
use std::alloc::{AllocError, Global};

/// What decides at these places, on both sides.
pub fn decides_at(
    alloc: Global,
    compared: &Compared,
    at: usize,
    other_at: usize,
) -> Result<String, AllocError>
    ensures { IfOk result (λ text. string_bytes text ≡ decides_at compared.now at other_at) }
{
    let (before, after) = (&compared.before.policy, &compared.after.policy);
    let (one, other) = (compared.one_at(at), compared.other_at(other_at));
    decides_lines(alloc, Class::Opercmds, before, after, one, other)
}

fn title_line(alloc: Global, level: Level, names: &str, decides: &str) -> Result<String, AllocError>
    ensures { IfOk result (λ text. string_bytes text
        ≡ codes "  NEEDS " ++ (level_text level ++ (codes " " ++ (names.now ++ 10 ∷ decides.now)))) }
{
    format!(in alloc; "  NEEDS {level} {names}\n{decides}")
}

/// A section. Without users it is left out.
pub fn section_text(
    alloc: Global,
    kind: &AskedKind,
    found: &[Option<Resource>],
    decides: &str,
    changes: &[UserChange],
) -> Result<String, AllocError>
    ensures { IfOk result (λ text. string_bytes text ≡ section_text kind.now found.now decides.now changes.now) }
{
    if changes.is_empty() {
        return Ok(String::new(alloc));
    }
    let names = names_text(alloc, &FormsAsked::OfKind(*kind), found)?;
    let mut text = title_line(alloc, kind.level, names.as_str(), decides)?;
    text.push_str(users_text(alloc, changes)?.as_str())?;
    Ok(text)
}

fn section_value(
    alloc: Global,
    kind: &AskedKind,
    found: &[Option<Resource>],
    one: Option<&Profile>,
    other: Option<&Profile>,
) -> Result<Value, AllocError>
    ensures { IfOk result (λ value. view value ≡ section_value kind.now found.now (option_copied one.entry)
        (option_copied other.entry)) }
{
    let which = FormsAsked::OfKind(*kind);
    let after = profile_value(alloc, other)?;
    let before = profile_value(alloc, one)?;
    let commands = Value::Array(commands_of(alloc, &which, found)?);
    let examples = examples_of(alloc, &which, found)?;
    let level = kind.level.text();
    json!(in alloc; {
        "after": after, "before": before, "class": "OPERCMDS", "commands": commands, "examples": examples,
        "kind": "question", "level": level
    })
}

/// What is asked about, as a line.
fn section_line(
    alloc: Global,
    kind: &AskedKind,
    found: &[Option<Resource>],
    one: Option<&Profile>,
    other: Option<&Profile>,
) -> Result<String, AllocError>
    ensures { IfOk result (λ text. string_bytes text ≡ json_line (section_value kind.now found.now
        (option_copied one.entry) (option_copied other.entry))) }
{
    let value = section_value(alloc, kind, found, one, other)?;
    json_line(alloc, &value)
}

/// The same section as JSON.
pub fn section_json(
    alloc: Global,
    kind: &AskedKind,
    found: &[Option<Resource>],
    one: Option<&Profile>,
    other: Option<&Profile>,
    changes: &[UserChange],
) -> Result<String, AllocError>
    ensures { IfOk result (λ text. string_bytes text ≡ section_json kind.now found.now (option_copied one.entry)
        (option_copied other.entry) changes.now) }
{
    if changes.is_empty() {
        return Ok(String::new(alloc));
    }
    let mut text = section_line(alloc, kind, found, one, other)?;
    text.push_str(users_json(alloc, changes)?.as_str())?;
    Ok(text)
}
