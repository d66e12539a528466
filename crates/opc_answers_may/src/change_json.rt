//! What a user may change, as JSON.
ghost use Rattle.std.specs.Prelude.{◌≡◌, ◌∷◌, [], IfOk, codes, false, string_bytes};
ghost use Rattle.std.specs.List.{flat_map};
ghost use Rattle.serde_json.specs.View.{view};
ghost use Rattle.serde_json.specs.Written.{has_float};
ghost use Rattle.opc_answers.specs.Json.{json_line};
ghost use Rattle.opc_answers_may.specs.Changes.{auditor_things, owned_by, owned_thing, special_things};
ghost use Rattle.opc_answers_may.specs.MayJson.{change_if, change_value, changes_by, changes_json, owned_json, texts};

use crate::change::{changes_as_owner, is_silent, owned_thing};
use crate::may::May;
use crate::text::on_word;
use crate::values::push_text;
use opc_answers::json::json_line;
use opc_policy_members::profile::Profile;
use opc_policy_members::profiles::Profiles;
use opc_policy_members::user::User;
use serde_json::{Value, json};
use std::alloc::{AllocError, Global};

/// What SPECIAL allows.
fn special_value(alloc: Global) -> Result<Value, AllocError>
    ensures { IfOk result (λ value. view value ≡ texts special_things) }
{
    let mut items = Vec::new(alloc);
    push_text(alloc, &mut items, "change the policy")?;
    push_text(alloc, &mut items, "import")?;
    push_text(alloc, &mut items, "see the account")?;
    Ok(Value::Array(items))
}

/// What AUDITOR allows.
fn auditor_value(alloc: Global) -> Result<Value, AllocError>
    ensures { IfOk result (λ value. view value ≡ texts auditor_things) }
{
    let mut items = Vec::new(alloc);
    push_text(alloc, &mut items, "see the policy")?;
    push_text(alloc, &mut items, "see the account")?;
    Ok(Value::Array(items))
}

/// A profile that is owned.
fn owned_value(alloc: Global, profile: &Profile) -> Result<Value, AllocError>
    ensures { IfOk result (λ value. view value ≡ texts (owned_thing profile.now ∷ [])) }
{
    let thing = owned_thing(alloc, profile)?;
    let mut items = Vec::new(alloc);
    push_text(alloc, &mut items, thing.as_str())?;
    Ok(Value::Array(items))
}

/// What the user may change or see, and by what.
fn change_value(alloc: Global, by: &str, verdict: &str, what: Value) -> Result<Value, AllocError>
    ensures { IfOk result (λ value. view value ≡ change_value by.now verdict.now (view what)) }
{
    json!(in alloc; {"by": by, "kind": "admin", "verdict": verdict, "what": what})
}

/// The same as a line.
#[tactic(auto, using(crate::proofs::NoFloats::change_so))]
fn change_line(alloc: Global, by: &str, verdict: &str, what: Value) -> Result<String, AllocError>
    requires { has_float (view what) ≡ false }
    ensures { IfOk result (λ text. string_bytes text ≡ json_line (change_value by.now verdict.now (view what))) }
{
    let value = change_value(alloc, by, verdict, what)?;
    json_line(alloc, &value)
}

/// The line about SPECIAL, if the user has it.
#[tactic(auto, using(crate::proofs::NoFloats::things_so))]
fn special_json(alloc: Global, is_special: bool, verdict: &str) -> Result<String, AllocError>
    ensures { IfOk result (λ text. string_bytes text
        ≡ change_if is_special (codes "SPECIAL") verdict.now special_things) }
{
    if !is_special {
        return Ok(String::new(alloc));
    }
    let what = special_value(alloc)?;
    change_line(alloc, "SPECIAL", verdict, what)
}

/// The line about AUDITOR, if the user has it.
#[tactic(auto, using(crate::proofs::NoFloats::things_so))]
fn auditor_json(alloc: Global, is_auditor: bool, verdict: &str) -> Result<String, AllocError>
    ensures { IfOk result (λ text. string_bytes text
        ≡ change_if is_auditor (codes "AUDITOR") verdict.now auditor_things) }
{
    if !is_auditor {
        return Ok(String::new(alloc));
    }
    let what = auditor_value(alloc)?;
    change_line(alloc, "AUDITOR", verdict, what)
}

#[tactic(auto, using(crate::proofs::NoFloats::things_so))]
fn owned_json(alloc: Global, verdict: &str, profile: &Profile) -> Result<String, AllocError>
    ensures { IfOk result (λ text. string_bytes text ≡ owned_json verdict.now profile.now) }
{
    let what = owned_value(alloc, profile)?;
    change_line(alloc, "OWNER", verdict, what)
}

/// The profiles that the user changes as their owner.
fn owned_lines(
    alloc: Global,
    verdict: &str,
    user: &User,
    profiles: &Profiles,
) -> Result<String, AllocError>
    ensures { IfOk result (λ text. string_bytes text
        ≡ flat_map (owned_json verdict.now) (owned_by user.now profiles.now)) }
{
    let mut text = String::new(alloc);
    for profile in profiles.iter() {
        if changes_as_owner(user, profile) {
            text.push_str(owned_json(alloc, verdict, profile)?.as_str())?;
        }
    }
    Ok(text)
}

fn changes_by(
    alloc: Global,
    verdict: &str,
    user: &User,
    profiles: &Profiles,
) -> Result<String, AllocError>
    ensures { IfOk result (λ text. string_bytes text ≡ changes_by verdict.now user.now profiles.now) }
{
    let mut text = special_json(alloc, user.special, verdict)?;
    text.push_str(auditor_json(alloc, user.auditor, verdict)?.as_str())?;
    text.push_str(owned_lines(alloc, verdict, user, profiles)?.as_str())?;
    Ok(text)
}

/// What the user may change and see; if `allowed` is set, only if the user can log on.
pub fn changes_json(alloc: Global, may: &May, allowed: bool) -> Result<String, AllocError>
    ensures { IfOk result (λ text. string_bytes text ≡ changes_json allowed may.now) }
{
    if is_silent(may, allowed) {
        return Ok(String::new(alloc));
    }
    let policy = &may.room.policy;
    changes_by(
        alloc,
        on_word(&may.no_logon),
        &may.member.user,
        &policy.profiles,
    )
}
