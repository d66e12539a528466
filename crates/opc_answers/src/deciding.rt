//! The profile that decides.
ghost use Rattle.std.specs.Prelude.{◌≡◌, IfOk};
ghost use Rattle.std.specs.Option.{option_copied};
ghost use Rattle.opc_policy_members.specs.Profiles.{of_class};
ghost use Rattle.opc_policy.specs.Deciding.{deciding};
ghost use Rattle.opc_answers.specs.Deciding.{decider};

use opc_names::class::Class;
use opc_names::name::Resource;
use opc_policy::covering::first_covering;
use opc_policy_members::policy::Policy;
use opc_policy_members::profile::Profile;
use opc_policy_members::profiles::Profiles;
use std::alloc::AllocError;

/// The most specific one: the first, since profiles are in the order of their patterns.
fn most_specific<'a>(
    profiles: &'a Profiles,
    class: Class,
    resource: &Resource,
) -> Option<&'a Profile>
    ensures { option_copied result ≡ deciding (of_class class profiles.now) resource.now }
{
    first_covering(profiles, class, resource)
}

/// The profile that decides, if the class is active and a profile covers the resource.
pub fn deciding<'a>(policy: &'a Policy, class: Class, resource: &Resource) -> Option<&'a Profile>
    ensures { option_copied result ≡ decider policy.entry.now class resource.now }
{
    if !policy.active.contains(class) {
        return None;
    }
    most_specific(&policy.profiles, class, resource)
}

/// A copy of it.
pub fn decider(
    policy: &Policy,
    class: Class,
    resource: &Resource,
) -> Result<Option<Profile>, AllocError>
    ensures { IfOk result (λ decided. decided ≡ decider policy.now class resource.now) }
{
    match deciding(policy, class, resource) {
        Some(profile) => Ok(Some(profile.clone()?)),
        None => Ok(None),
    }
}
