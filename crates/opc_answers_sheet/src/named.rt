//! Users whom the access list of a profile names, and what it gives to the others.
ghost use Rattle.std.specs.Prelude.{◌≡◌};
ghost use Rattle.std.specs.List.{list_any};
ghost use Rattle.opc_answers_sheet.specs.Marks.{marks_in};
ghost use Rattle.opc_answers_sheet.specs.Named.{everyone_holds, has_entry, is_called, is_named, lets_others};

use crate::callers::Caller;
use crate::marks::meet;
use opc_answers::members::UserWithGroups;
use opc_names::level::Level;
use opc_names::name::GroupName;
use opc_policy_members::profile::Profile;

/// Whether an entry for every console is for this name.
fn has_entry(profile: &Profile, name: &str) -> bool
    ensures { result ≡ has_entry profile.now.entries name.now }
{
    profile.entries.level_of(None, name).is_some()
}

fn has_group(profile: &Profile, groups: &[GroupName]) -> bool
    ensures { result ≡ list_any (has_entry profile.now.entries) groups.now }
{
    groups.iter().any(|group| has_entry(profile, group.text()))
}

/// Whether an entry for every console is for a user, or for a group of the user.
fn is_named(profile: &Profile, member: &UserWithGroups) -> bool
    ensures { result ≡ is_named profile.now.entries member.now }
{
    has_entry(profile, member.user.id.text()) || has_group(profile, member.groups.as_slice())
}

/// The same of a user whose marks are at hand. Of most users they tell at once that no entry names them.
#[tactic(auto, using(crate::proofs::Marked::passed_over))]
pub(crate) fn is_called(profile: &Profile, marks: u64, caller: &Caller<'_>) -> bool
    requires { marks ≡ marks_in profile.now.entries }
    ensures { result ≡ is_called profile.now caller.now }
{
    meet(marks, caller.marks()) && is_named(profile, caller.member)
}

/// Whether the entry for everyone gives a level.
fn everyone_holds(profile: &Profile, needed: Level) -> bool
    ensures { result ≡ everyone_holds profile.now.entries needed }
{
    match profile.entries.level_of(None, "*") {
        Some(held) => held.includes(needed),
        None => false,
    }
}

/// Whether a user may whom no entry names: with a warning, or by what everybody holds.
pub(crate) fn lets_others(profile: &Profile, needed: Level) -> bool
    ensures { result ≡ lets_others profile.now needed }
{
    profile.warning
        || Level::None.includes(needed)
        || profile.uacc.includes(needed)
        || everyone_holds(profile, needed)
}
