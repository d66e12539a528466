//! What one user may, as JSON.
ghost use Rattle.std.specs.Prelude.{◌≡◌, IfOk, map, string_bytes};
ghost use Rattle.std.specs.List.{flat_map};
ghost use Rattle.serde_json.specs.Data.{string};
ghost use Rattle.serde_json.specs.View.{view};
ghost use Rattle.opc_answers_may.specs.MayTexts.{names_of};
ghost use Rattle.opc_answers.specs.Json.{rule_words, text_or_null};
ghost use Rattle.opc_answers_may.specs.MayJson.{
  auth_rule,
  forms_json,
  forms_value,
  basis_json,
  group_json,
  held_of,
  held_on,
  level_of,
  logon_value,
  logons_json,
  pattern_of,
  pattern_on,
  rule_of,
  rule_on,
  rule_unless,
  section_json,
  sections_json,
  user_json,
  user_value,
};

use crate::commands::{CommandsHead, CommandsLine, CommandsSaid, CommandsSection, FormsAsked};
use crate::logons::{LogonAt, LogonBasis, bases, groups_on, logons_of};
use crate::may::May;
use crate::text::{logon_word, may_log_on, said_may, said_word};
use crate::values::{commands_of, consoles_value, examples_of, groups_value};
use opc_answers::json::{
    held_value, json_line, place_value, rule_value, source_value, text_or_null,
};
use opc_answers::logons::NoLogon;
use opc_answers::members::UserWithGroups;
use opc_answers::text::no_logon_text;
use opc_names::auth::Auth;
use opc_names::name::Resource;
use opc_policy_sources::sources::HeldLevel;
use serde_json::{Value, json};
use std::alloc::{AllocError, Global};

fn user_value(alloc: Global, member: &UserWithGroups) -> Result<Value, AllocError>
    ensures { IfOk result (λ value. view value ≡ user_value member.now) }
{
    let groups = groups_value(alloc, member.groups.as_slice())?;
    let user = &member.user;
    let (auditor, id, restricted) = (user.auditor, user.id.text(), user.restricted);
    let (revoked, special) = (user.revoked, user.special);
    json!(in alloc; {
        "auditor": auditor, "groups": groups, "id": id, "kind": "user", "restricted": restricted,
        "revoked": revoked, "special": special
    })
}

/// The first object: the user.
#[tactic(auto, using(crate::proofs::NoFloats::user_so))]
pub fn user_json(alloc: Global, member: &UserWithGroups) -> Result<String, AllocError>
    ensures { IfOk result (λ text. string_bytes text ≡ user_json member.now) }
{
    let value = user_value(alloc, member)?;
    json_line(alloc, &value)
}

/// The pattern of the profile that decides about a LOGON, or `null`.
fn pattern_on(alloc: Global, basis: &LogonBasis) -> Result<Value, AllocError>
    ensures { IfOk result (λ value. view value ≡ text_or_null (pattern_on basis.now)) }
{
    match basis {
        LogonBasis::ByProfile(pattern) => Value::try_from_str(alloc, pattern.text()),
        LogonBasis::NoProfile | LogonBasis::NoDigest | LogonBasis::Auto => Ok(Value::Null),
    }
}

/// The level held there, if it counts: it does not where the console acts for the user.
fn held_on(logon: &LogonAt) -> Option<HeldLevel>
    ensures { result ≡ held_on logon.now.basis logon.now.line.held }
{
    match logon.basis {
        LogonBasis::Auto => None,
        LogonBasis::ByProfile(_) | LogonBasis::NoProfile | LogonBasis::NoDigest => logon.line.held,
    }
}

/// The rule about a LOGON.
fn rule_on(alloc: Global, logon: &LogonAt) -> Result<Value, AllocError>
    ensures { IfOk result (λ value. view value ≡ text_or_null (rule_on logon.now.basis
        (rule_words logon.now.line.ruling logon.now.line.instead))) }
{
    match logon.basis {
        LogonBasis::Auto => Value::try_from_str(alloc, "AUTO"),
        LogonBasis::ByProfile(_) | LogonBasis::NoProfile | LogonBasis::NoDigest => {
            rule_value(alloc, &logon.line.ruling, &logon.line.instead)
        }
    }
}

/// Consoles under a head.
fn logon_value(alloc: Global, logon: &LogonAt, logons: &[LogonAt]) -> Result<Value, AllocError>
    ensures { IfOk result (λ value. view value ≡ logon_value logon.now logons.now) }
{
    let counted = held_on(logon);
    let place = place_value(alloc, &counted)?;
    let consoles = consoles_value(alloc, logons)?;
    let level = held_value(alloc, &counted)?;
    let pattern = pattern_on(alloc, &logon.basis)?;
    let rule = rule_on(alloc, logon)?;
    let source = source_value(alloc, &counted)?;
    let verdict = logon_word(logon);
    json!(in alloc; {
        "at": place, "consoles": consoles, "held": level, "kind": "logon", "pattern": pattern, "rule": rule,
        "source": source, "verdict": verdict
    })
}

/// The same as a line; if `allowed` is set, only if the user may log on there.
#[tactic(auto, using(crate::proofs::NoFloats::logon_so))]
fn group_json(alloc: Global, logons: &[LogonAt], allowed: bool) -> Result<String, AllocError>
    ensures { IfOk result (λ text. string_bytes text ≡ group_json allowed logons.now) }
{
    let [logon, ..] = logons else {
        return Ok(String::new(alloc));
    };
    if allowed && !may_log_on(logon) {
        return Ok(String::new(alloc));
    }
    let value = logon_value(alloc, logon, logons)?;
    json_line(alloc, &value)
}

/// The consoles where this decides.
fn basis_json(
    alloc: Global,
    logons: &[LogonAt],
    basis: &LogonBasis,
    allowed: bool,
) -> Result<String, AllocError>
    ensures { IfOk result (λ text. string_bytes text ≡ basis_json allowed logons.now basis.now) }
{
    let groups = groups_on(alloc, logons, basis)?;
    let mut text = String::new(alloc);
    for group in groups.as_slice() {
        text.push_str(group_json(alloc, group.as_slice(), allowed)?.as_str())?;
    }
    Ok(text)
}

/// Where the user may log on; if `allowed` is set, only there.
pub fn logons_json(alloc: Global, may: &May, allowed: bool) -> Result<String, AllocError>
    ensures { IfOk result (λ text. string_bytes text ≡ logons_json allowed may.now) }
{
    let logons = logons_of(alloc, may)?;
    let bases = bases(alloc, &may.room.policy)?;
    let mut text = String::new(alloc);
    for basis in &bases {
        text.push_str(basis_json(alloc, logons.as_slice(), basis, allowed)?.as_str())?;
    }
    Ok(text)
}

/// The pattern of the profile that decides about commands, or `null`.
fn pattern_of(alloc: Global, head: &CommandsHead) -> Result<Value, AllocError>
    ensures { IfOk result (λ value. view value ≡ text_or_null (pattern_of head.now)) }
{
    match head {
        CommandsHead::ByProfile(pattern, _) => Value::try_from_str(alloc, pattern.text()),
        CommandsHead::ByNone | CommandsHead::ByAuthority(_) => Ok(Value::Null),
    }
}

/// The level that the forms of a line ask for, if it is one.
fn level_of(alloc: Global, which: &FormsAsked) -> Result<Value, AllocError>
    ensures { IfOk result (λ value. view value ≡ text_or_null (level_of which.now)) }
{
    match which {
        FormsAsked::OfKind(kind) => Value::try_from_str(alloc, kind.level.text()),
        FormsAsked::EnteredBy(_) | FormsAsked::ClosedTo(_) => Ok(Value::Null),
    }
}

fn held_of(said: &CommandsSaid) -> Option<HeldLevel>
    ensures { result ≡ held_of said.now }
{
    match said {
        CommandsSaid::Ruled(line) => line.held,
        CommandsSaid::Entered(_, _) | CommandsSaid::Closed(_) => None,
    }
}

fn auth_rule(alloc: Global, auth: &Auth) -> Result<String, AllocError>
    ensures { IfOk result (λ text. string_bytes text ≡ auth_rule auth.now) }
{
    let auth = auth.text();
    format!(in alloc; "AUTH {auth}")
}

/// The authority that decides, or why the user cannot log on.
fn rule_unless(alloc: Global, auth: &Auth, no_logon: &Option<NoLogon>) -> Result<String, AllocError>
    ensures { IfOk result (λ text. string_bytes text ≡ rule_unless auth.now no_logon.now) }
{
    match no_logon {
        Some(why) => no_logon_text(alloc, why),
        None => auth_rule(alloc, auth),
    }
}

/// The rule about the commands of a line.
fn rule_of(alloc: Global, said: &CommandsSaid) -> Result<Value, AllocError>
    ensures { IfOk result (λ value. view value ≡ text_or_null (rule_of said.now)) }
{
    match said {
        CommandsSaid::Ruled(line) => rule_value(alloc, &line.ruling, &line.instead),
        CommandsSaid::Entered(auth, no_logon) => {
            let text = rule_unless(alloc, auth, no_logon)?;
            Value::try_from_str(alloc, text.as_str())
        }
        CommandsSaid::Closed(auth) => {
            let text = auth_rule(alloc, auth)?;
            Value::try_from_str(alloc, text.as_str())
        }
    }
}

/// The commands in a line, which are given, under a head.
fn forms_value(
    alloc: Global,
    head: &CommandsHead,
    line: &CommandsLine,
    found: &[Option<Resource>],
    commands: Vec<Value>,
) -> Result<Value, AllocError>
    requires { map view commands.items ≡ map string (names_of line.now.asked found.now) }
    ensures { IfOk result (λ value. view value ≡ forms_value head.now line.now found.now) }
{
    let commands = Value::Array(commands);
    let held = held_of(&line.said);
    let place = place_value(alloc, &held)?;
    let examples = examples_of(alloc, &line.asked, found)?;
    let level = held_value(alloc, &held)?;
    let needed = level_of(alloc, &line.asked)?;
    let pattern = pattern_of(alloc, head)?;
    let rule = rule_of(alloc, &line.said)?;
    let source = source_value(alloc, &held)?;
    let verdict = said_word(&line.said);
    json!(in alloc; {
        "at": place, "commands": commands, "examples": examples, "held": level, "kind": "commands", "level": needed,
        "pattern": pattern, "rule": rule, "source": source, "verdict": verdict
    })
}

/// The same as a line, unless it has no commands; if `allowed` is set, only if the user may.
#[tactic(auto, using(crate::proofs::Lines::unnamed, crate::proofs::Lines::named))]
fn forms_json(
    alloc: Global,
    head: &CommandsHead,
    line: &CommandsLine,
    found: &[Option<Resource>],
    allowed: bool,
) -> Result<String, AllocError>
    ensures { IfOk result (λ text. string_bytes text ≡ forms_json allowed found.now head.now line.now) }
{
    if allowed && !said_may(&line.said) {
        return Ok(String::new(alloc));
    }
    let commands = commands_of(alloc, &line.asked, found)?;
    if commands.as_slice().is_empty() {
        return Ok(String::new(alloc));
    }
    let value = forms_value(alloc, head, line, found, commands)?;
    json_line(alloc, &value)
}

fn section_json(
    alloc: Global,
    section: &CommandsSection,
    found: &[Option<Resource>],
    allowed: bool,
) -> Result<String, AllocError>
    ensures { IfOk result (λ text. string_bytes text ≡ section_json allowed found.now section.now) }
{
    let mut text = String::new(alloc);
    for line in section.lines.as_slice() {
        text.push_str(forms_json(alloc, &section.head, line, found, allowed)?.as_str())?;
    }
    Ok(text)
}

/// Sections, with the forms of which something is found; if `allowed` is set, only what the user may.
pub fn sections_json(
    alloc: Global,
    sections: &[CommandsSection],
    found: &[Option<Resource>],
    allowed: bool,
) -> Result<String, AllocError>
    ensures { IfOk result (λ text. string_bytes text ≡ sections_json allowed found.now sections.now) }
{
    let mut text = String::new(alloc);
    for section in sections {
        text.push_str(section_json(alloc, section, found, allowed)?.as_str())?;
    }
    Ok(text)
}
