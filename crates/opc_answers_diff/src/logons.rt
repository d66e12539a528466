//! Of whom something else is said who logs on, console by console.
ghost use Rattle.std.specs.Prelude.{◌≡◌, IfOk, Some, string_bytes};
ghost use Rattle.std.specs.Option.{option_copied};
ghost use Rattle.serde_json.specs.View.{view};
ghost use Rattle.opc_names.specs.declared.class.Class.TheVariants.{Console};
ghost use Rattle.opc_answers.specs.Deciding.{decider};
ghost use Rattle.opc_answers.specs.Json.{json_line};
ghost use Rattle.opc_answers_diff.specs.Logons.{below, logon_changes, logon_title, logon_value};
ghost use Rattle.opc_answers_diff.specs.Sections.{IsCompared};
ghost use Rattle.opc_answers_diff.specs.UsersShown as shown;
ghost use Rattle.opc_answers_diff.specs.Verdicts.{changes_at};
ghost use Rattle.opc_answers_diff.specs.declared.asked.Asked.TheVariants.{Logon};

use crate::asked::Asked;
use crate::compared::Compared;
use crate::decides_shown::{decides_lines, profile_value};
use crate::users_shown::{users_json, users_text};
use crate::verdicts::{UserChange, changes_at};
use opc_answers::beginning::logon_needs;
use opc_answers::deciding::deciding;
use opc_answers::json::json_line;
use opc_answers::logons::resource_of;
use opc_names::class::Class;
use opc_names::name::ConsoleName;
use opc_policy_members::policy::Policy;
use opc_policy_members::profile::Profile;
use serde_json::{Value, json};
use std::alloc::{AllocError, Global};

/// Of whom something else is said at a console where these profiles decide.
fn changes_by(
    alloc: Global,
    compared: &Compared,
    one: Option<&Profile>,
    other: Option<&Profile>,
    console: &ConsoleName,
) -> Result<Vec<UserChange>, AllocError>
    requires { IsCompared compared.now }
    ensures { IfOk result (λ list. list.items ≡ changes_at Logon (option_copied one.entry)
        (option_copied other.entry) compared.now.members (Some console.now)) }
{
    let members = compared.members_by(one, other);
    changes_at(alloc, &Asked::Logon, one, other, members, Some(console))
}

/// Of whom something else is said at a console.
pub fn logon_changes(
    alloc: Global,
    compared: &Compared,
    console: &ConsoleName,
) -> Result<Vec<UserChange>, AllocError>
    requires { IsCompared compared.now }
    ensures { IfOk result (λ list. list.items ≡ logon_changes compared.now.before.policy compared.now.after.policy
        compared.now.members console.now) }
{
    let (before, after) = (&compared.before.policy, &compared.after.policy);
    let resource = resource_of(console);
    let one = deciding(before, Class::Console, &resource);
    let other = deciding(after, Class::Console, &resource);
    changes_by(alloc, compared, one, other, console)
}

/// What a LOGON needs, and what decides on both sides.
fn logon_title(
    alloc: Global,
    before: &Policy,
    after: &Policy,
    console: &ConsoleName,
) -> Result<String, AllocError>
    ensures { IfOk result (λ text. string_bytes text ≡ logon_title before.now after.now console.now) }
{
    let resource = resource_of(console);
    let one = deciding(before, Class::Console, &resource);
    let other = deciding(after, Class::Console, &resource);
    let decides = decides_lines(alloc, Class::Console, before, after, one, other)?;
    let needs = logon_needs(alloc, console)?;
    let (needs, decides) = (needs.as_str(), decides.as_str());
    format!(in alloc; "  {needs}{decides}")
}

/// A section. Without lines it is left out.
pub fn logon_text(
    alloc: Global,
    before: &Policy,
    after: &Policy,
    console: &ConsoleName,
    changes: &[UserChange],
) -> Result<String, AllocError>
    ensures { IfOk result (λ text. string_bytes text
        ≡ below (logon_title before.now after.now console.now) shown.change_text changes.now) }
{
    if changes.is_empty() {
        return Ok(String::new(alloc));
    }
    let mut text = logon_title(alloc, before, after, console)?;
    text.push_str(users_text(alloc, changes)?.as_str())?;
    Ok(text)
}

fn logon_value(
    alloc: Global,
    before: Option<&Profile>,
    after: Option<&Profile>,
    console: &ConsoleName,
) -> Result<Value, AllocError>
    ensures { IfOk result (λ value. view value ≡ logon_value (option_copied before.entry)
        (option_copied after.entry) console.now) }
{
    let before = profile_value(alloc, before)?;
    let after = profile_value(alloc, after)?;
    let console = console.text();
    json!(in alloc; {
        "after": after, "before": before, "class": "CONSOLE", "commands": ["LOGON"],
        "examples": {"LOGON": console}, "kind": "question", "level": "READ"
    })
}

/// What is asked about, as a line.
#[tactic(auto, using(crate::proofs::Floats::logon_so))]
fn logon_line(
    alloc: Global,
    before: &Policy,
    after: &Policy,
    console: &ConsoleName,
) -> Result<String, AllocError>
    ensures { IfOk result (λ text. string_bytes text ≡ json_line (logon_value
        (decider before.now Console console.now) (decider after.now Console console.now) console.now)) }
{
    let resource = resource_of(console);
    let one = deciding(before, Class::Console, &resource);
    let other = deciding(after, Class::Console, &resource);
    let value = logon_value(alloc, one, other, console)?;
    json_line(alloc, &value)
}

/// The same section as JSON.
pub fn logon_json(
    alloc: Global,
    before: &Policy,
    after: &Policy,
    console: &ConsoleName,
    changes: &[UserChange],
) -> Result<String, AllocError>
    ensures { IfOk result (λ text. string_bytes text ≡ below (json_line (logon_value
        (decider before.now Console console.now) (decider after.now Console console.now) console.now))
        shown.change_json changes.now) }
{
    if changes.is_empty() {
        return Ok(String::new(alloc));
    }
    let mut text = logon_line(alloc, before, after, console)?;
    text.push_str(users_json(alloc, changes)?.as_str())?;
    Ok(text)
}
