//! Who can act at a console: by a logon, or as the user for whom the console acts while unattended.
ghost use Rattle.std.specs.Prelude.{◌≡◌};
ghost use Rattle.std.specs.List.{list_any};
ghost use Rattle.std.specs.Option.{is_none, option_copied, option_map};
ghost use Rattle.opc_answers.specs.declared.logons.Instead.TheVariants.{NoLogon as Off};
ghost use Rattle.opc_answers.specs.Logons.{acts_for, by_profile, denied_by, gets_on, nowhere};
ghost use Rattle.opc_answers.specs.Logons.{Door as TheDoor};

use crate::deciding::deciding;
use crate::members::UserWithGroups;
use opc_board::rows::ConsoleRow;
use opc_names::class::Class;
use opc_names::level::Level;
use opc_names::name::{ConsoleName, Resource};
use opc_policy::ruling::{Ruling, profile_ruling};
use opc_policy_members::policy::Policy;
use opc_policy_members::profile::Profile;
use opc_terms::mode::Mode;
use opc_terms::rule::Rule;
use std::marker::Model;

/// Why a user cannot log on: a rule denies the logon, no digest of a password is stored, or no console admits the user.
#[derive(Clone, Copy)]
pub enum NoLogon {
    Denied(Rule),
    NoDigest,
    NoConsole,
}

/// What replaces a ruling.
#[derive(Clone, Copy)]
pub enum Instead {
    /// The user may, but cannot log on.
    NoLogon(NoLogon),
    /// A LOGON is denied, since no digest of a password is stored.
    NoDigest,
    /// The command is done, and the line that it asks for is left out, as is ruled.
    Hidden,
}

/// The reason why a user cannot log on, in the place of a ruling, if there is one.
pub fn off_for(no_logon: Option<NoLogon>) -> Option<Instead>
    ensures { result ≡ option_map Off no_logon }
{
    match no_logon {
        Some(why) => Some(Instead::NoLogon(why)),
        None => None,
    }
}

/// A console, and the profile that decides who may log on there.
#[derive(Drop)]
pub struct Door<'a> {
    console: ConsoleRow,
    profile: Option<&'a Profile>,
}

impl<'a> Model for Door<'a> {
    ghost use Rattle.std.specs.Option.{option_copied};
    ghost use Rattle.opc_answers.specs.Logons.{Door as TheDoor};

    ghost Value = { TheDoor };

    ghost view = { λ d. record { console = d.console; profile = option_copied d.profile } };
}

/// The resource of a console in class CONSOLE.
pub fn resource_of(name: &ConsoleName) -> Resource
    ensures { result ≡ name.now }
{
    name.as_kind()
}

fn denied_by(ruling: Ruling) -> Option<NoLogon>
    ensures { result ≡ denied_by ruling }
{
    match ruling {
        Ruling::Allowed(_) => None,
        Ruling::Denied(rule) => Some(NoLogon::Denied(rule)),
    }
}

/// By the profile that decides. If none does, the user is admitted.
fn by_profile(
    decided: Option<&Profile>,
    console: &ConsoleRow,
    member: &UserWithGroups,
) -> Option<NoLogon>
    ensures { result ≡ by_profile (option_copied decided.entry) console.now member.now }
{
    let profile = decided?;
    let groups = member.groups.as_slice();
    denied_by(profile_ruling(
        profile,
        &member.user,
        Some(&console.name),
        groups,
        Level::Read,
    ))
}

/// Whether the profile that decides admits the user; if none does, the user is admitted. It makes no rule, since many
/// consoles are asked for each user.
#[tactic(auto, using(crate::proofs::Admitted::admits_by))]
fn is_admitted(decided: Option<&Profile>, console: &ConsoleRow, member: &UserWithGroups) -> bool
    ensures { result ≡ is_none (by_profile (option_copied decided.entry) console.now member.now) }
{
    let Some(profile) = decided else {
        return true;
    };
    let groups = member.groups.as_slice();
    let held = profile.level_of(&member.user, Some(&console.name), groups);
    held.includes(Level::Read) || profile.warning
}

/// Whether the console acts for this user where nobody is on.
fn acts_for(console: &ConsoleRow, member: &UserWithGroups) -> bool
    ensures { result ≡ acts_for console.now member.now }
{
    match console.mode {
        Mode::Auto => console.name.text() == member.user.id.text(),
        Mode::Optional | Mode::Required => false,
    }
}

impl<'a> Door<'a> {
    ghost use Rattle.opc_answers.specs.Logons.{door_of, no_logon, refusal};

    /// The door of a console.
    pub fn of(policy: &'a Policy, console: &ConsoleRow) -> Self
        ensures { result ≡ door_of policy.entry.now console.now }
    {
        let resource = resource_of(&console.name);
        Door {
            console: *console,
            profile: deciding(policy, Class::Console, &resource),
        }
    }

    /// Why a user is not admitted.
    fn refusal(&self, member: &UserWithGroups) -> Option<NoLogon>
        ensures { result ≡ refusal self.now member.now }
    {
        if member.user.digest.is_none() {
            return Some(NoLogon::NoDigest);
        }
        if member.user.revoked {
            return Some(NoLogon::Denied(Rule::Revoked));
        }
        by_profile(self.profile, &self.console, member)
    }

    /// Why a user cannot log on.
    pub fn no_logon(&self, member: &UserWithGroups) -> Option<NoLogon>
        ensures { result ≡ no_logon self.now member.now }
    {
        if acts_for(&self.console, member) {
            return None;
        }
        self.refusal(member)
    }

    /// Whether there is no reason why a user cannot log on.
    fn lets_on(&self, member: &UserWithGroups) -> bool
        ensures { result ≡ gets_on member.now self.now }
    {
        if acts_for(&self.console, member) {
            return true;
        }
        let user = &member.user;
        if user.digest.is_none() || user.revoked {
            return false;
        }
        is_admitted(self.profile, &self.console, member)
    }
}

fn is_let_on(member: &UserWithGroups, doors: &[Door<'_>]) -> bool
    ensures { result ≡ list_any (gets_on member.now) doors.now }
{
    doors.iter().any(|door| door.lets_on(member))
}

/// That a user can log on at none of some consoles.
pub fn nowhere(member: &UserWithGroups, doors: &[Door<'_>]) -> Option<NoLogon>
    ensures { result ≡ nowhere member.now doors.now }
{
    if is_let_on(member, doors) {
        return None;
    }
    Some(NoLogon::NoConsole)
}
