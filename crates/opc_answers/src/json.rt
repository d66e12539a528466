//! An answer as JSON.
ghost use Rattle.std.specs.Prelude.{◌≡◌, IfOk, false, option_map, string_bytes};
ghost use Rattle.std.specs.List.{flat_map};
ghost use Rattle.std.specs.Option.{option_copied, option_map_or};
ghost use Rattle.serde_json.specs.View.{view};
ghost use Rattle.serde_json.specs.Written.{has_float};
ghost use Rattle.opc_names.specs.Spellings.{level_text};
ghost use Rattle.opc_answers.specs.Json.{
  asked_value,
  beginning_json,
  console_json,
  console_value,
  consoles_json,
  group_of,
  held_words,
  json_line,
  place_words,
  rule_words,
  ruling_words,
  shows_json,
  source_words,
  taken_words,
  text_or_null,
  user_json,
  user_value,
};

use crate::beginning::kind_words;
use crate::consoles::ConsoleLine;
use crate::lines::UserLine;
use crate::logons::Instead;
use crate::shows::Shows;
use crate::text::{console_word, is_allowed, may, no_logon_text, verdict_word};
use crate::wanted::{Entered, Wanted, line_wanted};
use crate::who::Who;
use opc_policy::ruling::Ruling;
use opc_policy_members::profile::Profile;
use opc_policy_sources::sources::HeldLevel;
use opc_rows::Rows;
use serde_json::{Value, json};
use std::alloc::{AllocError, Global};

/// A value as a line.
pub fn json_line(alloc: Global, value: &Value) -> Result<String, AllocError>
    requires { has_float (view value.now) ≡ false }
    ensures { IfOk result (λ text. string_bytes text ≡ json_line (view value.now)) }
{
    let mut text = value.to_string(alloc)?;
    text.push_str("\n")?;
    Ok(text)
}

/// The text, or `null`.
pub fn text_or_null(alloc: Global, text: Option<&str>) -> Result<Value, AllocError>
    ensures { IfOk result (λ value. view value ≡ text_or_null (option_copied text.entry)) }
{
    match text {
        Some(text) => Value::try_from_str(alloc, text),
        None => Ok(Value::Null),
    }
}

pub(crate) fn group_value(alloc: Global, wanted: &Wanted) -> Result<Value, AllocError>
    ensures { IfOk result (λ value. view value ≡ text_or_null (group_of wanted.now)) }
{
    match wanted {
        Wanted::Command(entered) => text_or_null(alloc, Some(entered.need.group.text())),
        Wanted::Logon(_) | Wanted::Access { .. } => Ok(Value::Null),
    }
}

/// The kind for which the unit of a command was taken.
pub(crate) fn taken_value(alloc: Global, wanted: &Wanted) -> Result<Value, AllocError>
    ensures { IfOk result (λ value. view value ≡ text_or_null (taken_words wanted.now)) }
{
    let Wanted::Command(
        Entered {
            unit: Some(kind),
            ..
        },
    ) = wanted
    else {
        return Ok(Value::Null);
    };
    let words = kind_words(alloc, *kind)?;
    Value::try_from_str(alloc, words.as_str())
}

/// The pattern of the profile that decides, or `null`.
pub fn pattern_value(alloc: Global, decided: &Option<Profile>) -> Result<Value, AllocError>
    ensures { IfOk result (λ value. view value ≡ text_or_null (option_map (λ (p : Profile). p.pattern) decided.now)) }
{
    match decided {
        Some(profile) => Value::try_from_str(alloc, profile.pattern.text()),
        None => Ok(Value::Null),
    }
}

/// Its level for everybody, or `null`.
pub fn uacc_value(alloc: Global, decided: &Option<Profile>) -> Result<Value, AllocError>
    ensures { IfOk result (λ value. view value
        ≡ text_or_null (option_map (λ (p : Profile). level_text p.uacc) decided.now)) }
{
    match decided {
        Some(profile) => Value::try_from_str(alloc, profile.uacc.text()),
        None => Ok(Value::Null),
    }
}

fn has_warning(decided: &Option<Profile>) -> bool
    ensures { result ≡ option_map_or (λ (p : Profile). p.warning) decided.now false }
{
    match decided {
        Some(profile) => profile.warning,
        None => false,
    }
}

/// What is asked about, and the profile that decides.
fn asked_value(
    alloc: Global,
    kind: &str,
    active: bool,
    wanted: &Wanted,
    decided: &Option<Profile>,
) -> Result<Value, AllocError>
    ensures { IfOk result (λ value. view value ≡ asked_value kind.now active wanted.now decided.now) }
{
    let (class, resource, level) = (wanted.class(), wanted.resource(), wanted.level());
    let taken = taken_value(alloc, wanted)?;
    let group = group_value(alloc, wanted)?;
    let pattern = pattern_value(alloc, decided)?;
    let uacc = uacc_value(alloc, decided)?;
    let warning = has_warning(decided);
    let (class, resource, level) = (class.text(), resource.text(), level.text());
    json!(in alloc; {
        "active": active, "as": taken, "class": class, "group": group, "kind": kind, "level": level,
        "pattern": pattern, "resource": resource, "uacc": uacc, "warning": warning
    })
}

/// The level held, or `null` if none was looked up.
pub fn held_value(alloc: Global, held: &Option<HeldLevel>) -> Result<Value, AllocError>
    ensures { IfOk result (λ value. view value ≡ text_or_null (held_words held.now)) }
{
    match held {
        Some(held) => Value::try_from_str(alloc, held.level.text()),
        None => Ok(Value::Null),
    }
}

/// Where the level comes from, or `null`.
pub fn source_value(alloc: Global, held: &Option<HeldLevel>) -> Result<Value, AllocError>
    ensures { IfOk result (λ value. view value ≡ text_or_null (source_words held.now)) }
{
    let Some(held) = held else {
        return Ok(Value::Null);
    };
    let source = held.source;
    let text = format!(in alloc; "{source}")?;
    Value::try_from_str(alloc, text.as_str())
}

/// The only console that the entry is for.
pub fn place_value(alloc: Global, held: &Option<HeldLevel>) -> Result<Value, AllocError>
    ensures { IfOk result (λ value. view value ≡ text_or_null (place_words held.now)) }
{
    let Some(held) = held else {
        return Ok(Value::Null);
    };
    match held.when {
        Some(console) => Value::try_from_str(alloc, console.text()),
        None => Ok(Value::Null),
    }
}

/// The rule of a ruling, or `null`.
pub fn ruling_value(alloc: Global, ruling: &Option<Ruling>) -> Result<Value, AllocError>
    ensures { IfOk result (λ value. view value ≡ text_or_null (ruling_words ruling.now)) }
{
    let Some(ruling) = ruling else {
        return Ok(Value::Null);
    };
    let text = ruling.rule().text(alloc)?;
    Value::try_from_str(alloc, text.as_str())
}

/// The rule that decided, or what is said in its place.
pub fn rule_value(
    alloc: Global,
    ruling: &Option<Ruling>,
    instead: &Option<Instead>,
) -> Result<Value, AllocError>
    ensures { IfOk result (λ value. view value ≡ text_or_null (rule_words ruling.now instead.now)) }
{
    match instead {
        Some(Instead::NoLogon(no_logon)) => {
            let text = no_logon_text(alloc, no_logon)?;
            Value::try_from_str(alloc, text.as_str())
        }
        Some(Instead::NoDigest) => Value::try_from_str(alloc, "NODIGEST"),
        Some(Instead::Hidden) | None => ruling_value(alloc, ruling),
    }
}

/// The object of the line of a user.
pub fn user_value(alloc: Global, line: &UserLine) -> Result<Value, AllocError>
    ensures { IfOk result (λ value. view value ≡ user_value line.now) }
{
    let place = place_value(alloc, &line.held)?;
    let held = held_value(alloc, &line.held)?;
    let rule = rule_value(alloc, &line.ruling, &line.instead)?;
    let source = source_value(alloc, &line.held)?;
    let (id, verdict) = (line.id.text(), verdict_word(&line.ruling, &line.instead));
    json!(in alloc; {
        "at": place, "held": held, "id": id, "kind": "user", "rule": rule, "source": source, "verdict": verdict
    })
}

fn console_value(alloc: Global, line: &ConsoleLine) -> Result<Value, AllocError>
    ensures { IfOk result (λ value. view value ≡ console_value line.now) }
{
    let rule = line.ruling.rule().text(alloc)?;
    let (auto, id) = (line.own, line.name.text());
    let (rule, verdict) = (rule.as_str(), console_word(line));
    json!(in alloc; {"auto": auto, "id": id, "kind": "console", "rule": rule, "verdict": verdict})
}

/// The line of a user, unless only users who may are requested and this one may not.
#[tactic(auto, using(crate::proofs::Floats::user_so))]
fn user_json(alloc: Global, line: &UserLine, allowed: bool) -> Result<String, AllocError>
    ensures { IfOk result (λ text. string_bytes text ≡ user_json allowed line.now) }
{
    if allowed && !may(line) {
        return Ok(String::new(alloc));
    }
    let value = user_value(alloc, line)?;
    json_line(alloc, &value)
}

/// The line of a console, unless only consoles that may are requested and this one may not.
#[tactic(auto, using(crate::proofs::Floats::console_so))]
fn console_json(alloc: Global, line: &ConsoleLine, allowed: bool) -> Result<String, AllocError>
    ensures { IfOk result (λ text. string_bytes text ≡ console_json allowed line.now) }
{
    if allowed && !is_allowed(&line.ruling) {
        return Ok(String::new(alloc));
    }
    let value = console_value(alloc, line)?;
    json_line(alloc, &value)
}

/// What is asked about, and the profile that decides, as a line.
#[tactic(auto, using(crate::proofs::Floats::asked_so))]
fn asked_json(
    alloc: Global,
    kind: &str,
    active: bool,
    wanted: &Wanted,
    decided: &Option<Profile>,
) -> Result<String, AllocError>
    ensures { IfOk result (λ text. string_bytes text
        ≡ json_line (asked_value kind.now active wanted.now decided.now)) }
{
    let value = asked_value(alloc, kind, active, wanted, decided)?;
    json_line(alloc, &value)
}

/// The line that a command asks for, as a question of its own.
fn shows_json(alloc: Global, active: bool, shows: &Option<Shows>) -> Result<String, AllocError>
    ensures { IfOk result (λ text. string_bytes text ≡ shows_json active shows.now) }
{
    let Some(shows) = shows else {
        return Ok(String::new(alloc));
    };
    let wanted = line_wanted(&shows.need);
    asked_json(alloc, "shows", active, &wanted, &shows.decided)
}

/// What is asked about, with the profiles that decide: the first lines.
pub fn beginning_json(alloc: Global, who: &Who) -> Result<String, AllocError>
    ensures { IfOk result (λ text. string_bytes text ≡ beginning_json who.now) }
{
    let mut text = asked_json(alloc, "question", who.active, &who.wanted, &who.decided)?;
    text.push_str(shows_json(alloc, who.active, &who.shows)?.as_str())?;
    Ok(text)
}

/// A line for each user; if `allowed` is set, for those alone who may.
pub fn users_json(alloc: Global, lines: &[UserLine], allowed: bool) -> Result<String, AllocError>
    ensures { IfOk result (λ text. string_bytes text ≡ flat_map (user_json allowed) lines.now) }
{
    let mut text = String::new(alloc);
    for line in lines {
        text.push_str(user_json(alloc, line, allowed)?.as_str())?;
    }
    Ok(text)
}

fn console_lines(alloc: Global, lines: &[ConsoleLine], allowed: bool) -> Result<String, AllocError>
    ensures { IfOk result (λ text. string_bytes text ≡ flat_map (console_json allowed) lines.now) }
{
    let mut text = String::new(alloc);
    for line in lines {
        text.push_str(console_json(alloc, line, allowed)?.as_str())?;
    }
    Ok(text)
}

/// A line for each console, if the question is about a command; if `allowed` is set, only for those that may.
pub fn consoles_json(
    alloc: Global,
    lines: &Option<Rows<ConsoleLine>>,
    allowed: bool,
) -> Result<String, AllocError>
    ensures { IfOk result (λ text. string_bytes text ≡ consoles_json allowed lines.now) }
{
    match lines {
        Some(lines) => console_lines(alloc, lines.as_slice(), allowed),
        None => Ok(String::new(alloc)),
    }
}
