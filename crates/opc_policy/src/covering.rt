//! The profiles of a class that cover a resource, in the order of their patterns.
ghost use Rattle.std.specs.Prelude.{◌≡◌, find};
ghost use Rattle.std.specs.Option.{option_copied};
ghost use Rattle.opc_names.specs.Patterns.{covers_text};
ghost use Rattle.opc_policy_members.specs.Profiles.{AreMostSpecificFirst, AreProfiles};
ghost use Rattle.opc_policy.specs.Explained.{is_covering, is_covering_from};

use opc_names::class::Class;
use opc_names::name::Resource;
use opc_names::pattern::SortKey;
use opc_names_keys::past::{key_past, with_period};
use opc_policy_members::profile::Profile;
use opc_policy_members::profiles::Profiles;
use std::ops::Bound;

/// Whether the pattern of a profile covers a resource.
fn covers(profile: &Profile, resource: &Resource) -> bool
    ensures { result ≡ covers_text profile.now.pattern resource.now }
{
    profile.pattern.covers(resource)
}

/// The first profile of a class that covers a resource, of those whose sort keys are at a start or after it. If the
/// resource differs from a key before its first `*` or `**`, all profiles that it differs from there are skipped
/// together.
pub(crate) fn covering_from<'a>(
    profiles: &'a Profiles,
    class: Class,
    resource: &Resource,
    start: Bound<SortKey>,
) -> Option<&'a Profile>
    ensures first { option_copied result ≡ find (is_covering_from class resource.now start) profiles.now }
    ensures profiles { AreProfiles profiles.now }
    ensures in_order { AreMostSpecificFirst profiles.now }
{
    let name = with_period(resource);
    let mut from = start;
    while let Some(profile) = profiles.first_from(class, from) {
        let key = profile.pattern.sort_key();
        if let Some(past) = key_past(&key, name.as_slice()) {
            from = Bound::Included(past);
        } else if covers(profile, resource) {
            return Some(profile);
        } else {
            from = Bound::Excluded(key);
        }
    }
    None
}

/// The first profile of a class that covers a resource.
pub fn first_covering<'a>(
    profiles: &'a Profiles,
    class: Class,
    resource: &Resource,
) -> Option<&'a Profile>
    ensures first { option_copied result ≡ find (is_covering class resource.now) profiles.now }
    ensures in_order { AreMostSpecificFirst profiles.now }
{
    covering_from(profiles, class, resource, Bound::Unbounded)
}
