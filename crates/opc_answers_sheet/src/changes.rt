//! Who may change the policy, and who sees the account.
ghost use Rattle.std.specs.Prelude.{◌≡◌, IfOk, map, string_bytes};
ghost use Rattle.opc_answers_sheet.specs.Changes.{
  can_act,
  gives,
  has_right,
  holders_text,
  ids_with,
  is_owned_by,
  owned_by,
  owned_text,
  owner_text,
  owners_text,
  profile_words,
  right_text,
  right_words,
};
ghost use Rattle.opc_answers_sheet.specs.Cells.{joined};

use crate::callers::Caller;
use crate::cells::users_text;
use crate::ways::is_as;
use opc_names::name::UserId;
use opc_policy_members::profile::Profile;
use opc_policy_members::profiles::Profiles;
use std::alloc::{AllocError, Global};

/// What an attribute of a user is for.
#[derive(Clone, Copy)]
pub enum Right {
    Change,
    SeeAccount,
}

/// Whether a user can log on, or acts at a console, and is not revoked.
fn can_act(caller: &Caller<'_>) -> bool
    ensures { result ≡ can_act caller.now }
{
    caller.no_logon.is_none() && !caller.member.user.revoked
}

fn gives(right: Right, caller: &Caller<'_>) -> bool
    ensures { result ≡ gives right caller.now }
{
    let user = &caller.member.user;
    match right {
        Right::Change => user.special,
        Right::SeeAccount => user.special || user.auditor,
    }
}

fn has_right(right: Right, caller: &Caller<'_>) -> bool
    ensures { result ≡ has_right right caller.now }
{
    can_act(caller) && gives(right, caller)
}

/// The users who have a right, or the others.
fn ids_with<'a>(
    alloc: Global,
    wanted: bool,
    right: Right,
    callers: &'a [Caller<'_>],
) -> Result<Vec<&'a str>, AllocError>
    ensures { IfOk result (λ ids. map (λ id. id.now) ids.items ≡ ids_with wanted right callers.now) }
{
    let mut ids = Vec::new(alloc);
    for caller in callers {
        if is_as(wanted, has_right(right, caller)) {
            ids.push(caller.member.user.id.text())?;
        }
    }
    Ok(ids)
}

fn holders_text(alloc: Global, ids: &[&str], others: &[&str]) -> Result<String, AllocError>
    ensures { IfOk result (λ text. string_bytes text
        ≡ holders_text (map (λ id. id.now) ids.now) (map (λ id. id.now) others.now)) }
{
    if ids.is_empty() {
        return String::from_str(alloc, ": nobody");
    }
    users_text(alloc, ids, 0, others)
}

fn right_words(right: Right) -> &'static str
    ensures { result.now ≡ right_words right }
{
    match right {
        Right::Change => "SPECIAL",
        Right::SeeAccount => "SPECIAL or AUDITOR",
    }
}

/// The users who have a right.
pub(crate) fn right_text(
    alloc: Global,
    right: Right,
    callers: &[Caller<'_>],
) -> Result<String, AllocError>
    ensures { IfOk result (λ text. string_bytes text ≡ right_text right callers.now) }
{
    let ids = ids_with(alloc, true, right, callers)?;
    let others = ids_with(alloc, false, right, callers)?;
    let holders = holders_text(alloc, ids.as_slice(), others.as_slice())?;
    let (words, holders) = (right_words(right), holders.as_str());
    format!(in alloc; "<p><b>{words}</b>{holders}</p>\n")
}

fn is_owned_by(profile: &Profile, id: &UserId) -> bool
    ensures { result ≡ is_owned_by id.now profile.now }
{
    profile.owner == *id
}

fn profile_words(alloc: Global, profile: &Profile) -> Result<String, AllocError>
    ensures { IfOk result (λ text. string_bytes text ≡ profile_words profile.now) }
{
    let (class, pattern) = (profile.class, profile.pattern);
    format!(in alloc; "{class} {pattern}")
}

/// The profiles that a user owns.
fn owned_by(alloc: Global, profiles: &Profiles, id: &UserId) -> Result<Vec<String>, AllocError>
    ensures { IfOk result (λ owned. map string_bytes owned.items ≡ owned_by id.now profiles.now) }
{
    let mut owned = Vec::new(alloc);
    for profile in profiles.iter() {
        if is_owned_by(profile, id) {
            owned.push(profile_words(alloc, profile)?)?;
        }
    }
    Ok(owned)
}

#[tactic(auto, using(crate::proofs::Joining::joined_so))]
fn joined(alloc: Global, words: &[String]) -> Result<String, AllocError>
    ensures { IfOk result (λ text. string_bytes text ≡ joined (map string_bytes words.now)) }
{
    words.join(alloc, ", ")
}

fn owned_text(alloc: Global, id: &UserId, owned: &[String]) -> Result<String, AllocError>
    ensures { IfOk result (λ text. string_bytes text ≡ owned_text id.now (map string_bytes owned.now)) }
{
    if owned.is_empty() {
        return Ok(String::new(alloc));
    }
    let words = joined(alloc, owned)?;
    let words = words.as_str();
    format!(in alloc; "<p><b>OWNER</b> {id}: {words}</p>\n")
}

/// What a user may change as an owner, who is not SPECIAL.
fn owner_text(alloc: Global, profiles: &Profiles, caller: &Caller<'_>) -> Result<String, AllocError>
    ensures { IfOk result (λ text. string_bytes text ≡ owner_text profiles.now caller.now) }
{
    let user = &caller.member.user;
    if !can_act(caller) || user.special {
        return Ok(String::new(alloc));
    }
    let owned = owned_by(alloc, profiles, &user.id)?;
    owned_text(alloc, &user.id, owned.as_slice())
}

pub(crate) fn owners_text(
    alloc: Global,
    profiles: &Profiles,
    callers: &[Caller<'_>],
) -> Result<String, AllocError>
    ensures { IfOk result (λ text. string_bytes text ≡ owners_text profiles.now callers.now) }
{
    let mut text = String::new(alloc);
    for caller in callers {
        text.push_str(owner_text(alloc, profiles, caller)?.as_str())?;
    }
    Ok(text)
}
