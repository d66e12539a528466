//! The profiles that cover a resource, with the level that a user holds in each.
ghost use Rattle.std.specs.Prelude.{◌≡◌, ◌≢◌, IfOk, IfErr, Ok, Err, map};
ghost use Rattle.std.specs.Option.{option_copied};
ghost use Rattle.opc_names.specs.Patterns.{covers_text};
ghost use Rattle.opc_policy.specs.Deciding.{covering};
ghost use Rattle.opc_policy.specs.Explained.{covering_patterns};
ghost use Rattle.opc_policy_members.specs.Profiles.{of_class};
ghost use Rattle.opc_policy_sources.specs.Levels.{covering_levels, level_in, pattern_of};

use crate::sources::{HeldLevel, held_from};
use opc_names::class::Class;
use opc_names::name::{ConsoleName, GroupName, Pattern, Resource, UserId};
use opc_policy_members::policy::Policy;
use opc_policy_members::profile::Profile;
use opc_policy_members::profiles::Profiles;
use opc_policy_members::user::User;
use opc_terms::fault::{Fault, Subject};
use std::alloc::{AllocError, Global};

/// A profile that covers, by its pattern, and the level that a user holds in it, with its source.
#[derive(Clone, Copy)]
pub struct CoveringLevel {
    pub pattern: Pattern,
    pub held: HeldLevel,
}

fn level_in(
    profile: &Profile,
    user: &User,
    console: Option<&ConsoleName>,
    groups: &[GroupName],
) -> CoveringLevel
    ensures { result ≡ level_in user.now (option_copied console.entry) groups.now profile.now }
{
    CoveringLevel {
        pattern: profile.pattern,
        held: held_from(profile, user, console, groups),
    }
}

fn covers(profile: &Profile, resource: &Resource) -> bool
    ensures { result ≡ covers_text profile.now.pattern resource.now }
{
    profile.pattern.covers(resource)
}

/// Of these profiles, those of a class that cover a resource, in order, with the level that a user holds in each.
fn levels_in(
    alloc: Global,
    profiles: &Profiles,
    class: Class,
    resource: &Resource,
    user: &User,
    console: Option<&ConsoleName>,
    groups: &[GroupName],
) -> Result<Vec<CoveringLevel>, AllocError>
    ensures { IfOk result (λ levels. levels.items ≡ map (level_in user.now (option_copied console.entry) groups.now)
        (covering resource.now (of_class class profiles.now))) }
{
    profiles
        .iter()
        .filter(|profile| profile.is_of(class))
        .filter(|profile| covers(profile, resource))
        .map(|profile| level_in(profile, user, console, groups))
        .collect(alloc)
}

/// The profiles of a class that cover a resource, in order, each with the level that a user holds in it, at a console
/// if one is given.
pub fn covering_levels(
    alloc: Global,
    policy: &Policy,
    class: Class,
    resource: &Resource,
    id: &UserId,
    console: Option<&ConsoleName>,
) -> Result<Vec<CoveringLevel>, Fault>
    ensures levels { IfOk result (λ levels. covering_levels policy.now class resource.now id.now
        (option_copied console.entry) ≡ Ok levels.items) }
    ensures patterns { IfOk result (λ levels. map pattern_of levels.items
        ≡ covering_patterns class resource.now policy.now.profiles) }
    ensures fault { IfErr result (λ fault. fault ≢ Fault.NoMemory → covering_levels policy.now class resource.now id.now
        (option_copied console.entry) ≡ Err fault) }
{
    let Some(user) = policy.users.get(id) else {
        return Err(Fault::Missing(Subject::of(id)));
    };
    let groups = policy.connects.groups_of(alloc, id)?;
    Ok(levels_in(
        alloc,
        &policy.profiles,
        class,
        resource,
        user,
        console,
        &groups,
    )?)
}
