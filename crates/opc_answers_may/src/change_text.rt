//! What a user may change, as text.
ghost use Rattle.std.specs.Prelude.{◌≡◌, IfOk, codes, string_bytes};
ghost use Rattle.std.specs.List.{flat_map};
ghost use Rattle.opc_answers_may.specs.Changes.{auditor_things, owned_by, special_things};
ghost use Rattle.opc_answers_may.specs.MayTexts.{changes_by, changes_text, owned_line, things_if};

use crate::change::{changes_as_owner, is_silent, owned_thing};
use crate::listing::{column, line_of, under};
use crate::may::May;
use crate::text::on_word;
use opc_policy_members::profile::Profile;
use opc_policy_members::profiles::Profiles;
use opc_policy_members::user::User;
use std::alloc::{AllocError, Global};

/// What SPECIAL allows, if the user has it.
fn special_text(alloc: Global, is_special: bool, column: &str) -> Result<String, AllocError>
    ensures { IfOk result (λ text. string_bytes text
        ≡ things_if is_special (codes "SPECIAL\n") column.now special_things) }
{
    if !is_special {
        return Ok(String::new(alloc));
    }
    format!(in alloc; "SPECIAL\n{column} change the policy,import,see the account\n")
}

/// What AUDITOR allows, if the user has it.
fn auditor_text(alloc: Global, is_auditor: bool, column: &str) -> Result<String, AllocError>
    ensures { IfOk result (λ text. string_bytes text
        ≡ things_if is_auditor (codes "AUDITOR\n") column.now auditor_things) }
{
    if !is_auditor {
        return Ok(String::new(alloc));
    }
    format!(in alloc; "AUDITOR\n{column} see the policy,see the account\n")
}

fn owned_line(alloc: Global, column: &str, profile: &Profile) -> Result<String, AllocError>
    ensures { IfOk result (λ text. string_bytes text ≡ owned_line column.now profile.now) }
{
    let thing = owned_thing(alloc, profile)?;
    line_of(alloc, column, thing.as_str())
}

/// The profiles that the user changes as their owner.
fn owned_lines(
    alloc: Global,
    column: &str,
    user: &User,
    profiles: &Profiles,
) -> Result<String, AllocError>
    ensures { IfOk result (λ text. string_bytes text
        ≡ flat_map (owned_line column.now) (owned_by user.now profiles.now)) }
{
    let mut text = String::new(alloc);
    for profile in profiles.iter() {
        if changes_as_owner(user, profile) {
            text.push_str(owned_line(alloc, column, profile)?.as_str())?;
        }
    }
    Ok(text)
}

fn changes_by(
    alloc: Global,
    column: &str,
    user: &User,
    profiles: &Profiles,
) -> Result<String, AllocError>
    ensures { IfOk result (λ text. string_bytes text ≡ changes_by column.now user.now profiles.now) }
{
    let mut text = special_text(alloc, user.special, column)?;
    text.push_str(auditor_text(alloc, user.auditor, column)?.as_str())?;
    let owned = owned_lines(alloc, column, user, profiles)?;
    text.push_str(under(alloc, "OWNER\n", owned.as_str())?.as_str())?;
    Ok(text)
}

/// What the user may change and see; if `allowed` is set, only if the user can log on.
pub fn changes_text(alloc: Global, may: &May, allowed: bool) -> Result<String, AllocError>
    ensures { IfOk result (λ text. string_bytes text ≡ changes_text allowed may.now) }
{
    if is_silent(may, allowed) {
        return Ok(String::new(alloc));
    }
    let column = column(alloc, on_word(&may.no_logon))?;
    let policy = &may.room.policy;
    changes_by(alloc, column.as_str(), &may.member.user, &policy.profiles)
}
