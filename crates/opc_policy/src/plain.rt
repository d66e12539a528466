//! The deciding profile by pairs: the plain program that the search is measured against.
ghost use Rattle.std.specs.Prelude.{◌≡◌, ◌++◌, ◌∷◌, [], ℕ, List};
ghost use Rattle.std.specs.Option.{option_copied};
ghost use Rattle.opc_policy_members.specs.Profiles.{AreProfiles, of_class};
ghost use Rattle.opc_policy.specs.Deciding.{IsDeciding, deciding};
ghost use Rattle.opc_names.specs.Patterns.{CoversText};
ghost use Rattle.opc_policy_members.specs.declared.profile.Profile.{Profile as TheProfile};

use opc_names::class::Class;
use opc_names::name::Resource;
use opc_policy_members::profile::Profile;

/// The profile of a class that decides a resource, of a whole list: each that covers is compared with the most
/// specific one before it.
pub fn deciding_by_pairs<'a>(
    profiles: &'a [Profile],
    class: Class,
    resource: &Resource,
) -> Option<&'a Profile>
    requires { AreProfiles profiles.now }
    ensures { option_copied result ≡ deciding (of_class class profiles.now) resource.now }
{
    let mut best = None;
    for profile in profiles {
        if profile.is_of(class) && profile.pattern.covers(resource) {
            best = more_specific(best, profile);
        }
    }
    best
}

/// The one that decides among some and one more, which covers.
fn more_specific<'a>(best: Option<&'a Profile>, profile: &'a Profile) -> Option<&'a Profile>
    ensures { (seen : List TheProfile) (resource : List ℕ) → CoversText profile.now.pattern resource →
        IsDeciding seen resource (option_copied best.entry) →
        IsDeciding (seen ++ profile.now ∷ []) resource (option_copied result) }
{
    let Some(decided) = best else {
        return Some(profile);
    };
    if profile.pattern.before(&decided.pattern) {
        Some(profile)
    } else {
        best
    }
}
