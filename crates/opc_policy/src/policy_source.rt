//! A policy in memory as a source of profiles.
ghost use Rattle.std.specs.Prelude.{◌≡◌, IfOk, IsOkUnless, List, filter, length};
ghost use Rattle.std.specs.Option.{option_copied};
ghost use Rattle.opc_policy_members.specs.Profiles.{AreProfiles, of_class};
ghost use Rattle.opc_policy.specs.Deciding.{deciding};
ghost use Rattle.opc_policy.specs.Examined.{is_chosen, read_until};
ghost use Rattle.opc_policy_members.specs.declared.profile.Profile.{Profile as TheProfile};
ghost use Rattle.opc_terms.specs.declared.store_fault.StoreFault.TheVariants.{NoMemory};

use crate::source::{ProfileSource, Taken};
use opc_names::class::Class;
use opc_names::name::Resource;
use opc_policy_members::policy::Policy;
use opc_policy_members::profile::Profile;
use opc_policy_members::profiles::Profiles;
use opc_terms::store_fault::StoreFault;
use std::alloc::{AllocError, Global};

/// The first profile that covers a resource, of those of a class and, if one is given, with a head, and how many were
/// read for it.
fn first_chosen(
    profiles: &Profiles,
    class: Class,
    head: Option<&str>,
    resource: &Resource,
) -> Result<Taken, AllocError>
    ensures first { IfOk result (λ taken.
        taken.profile ≡ deciding (filter (is_chosen class (option_copied head.entry)) profiles.now) resource.now) }
    ensures rows { IfOk result (λ taken.
        taken.rows ≡ length (read_until taken.profile
        (filter (is_chosen class (option_copied head.entry)) profiles.now))) }
    ensures sound { AreProfiles profiles.now }
{
    let mut rows = 0;
    for profile in profiles.iter() {
        if is_chosen(profile, class, head) {
            rows += 1;
            if profile.pattern.covers(resource) {
                return Taken::of(profile, rows);
            }
        }
    }
    Ok(Taken {
        profile: None,
        rows,
    })
}

/// Copies of the profiles of a class, in their order.
fn copies_of(alloc: Global, profiles: &Profiles, class: Class) -> Result<Vec<Profile>, AllocError>
    ensures copies { IfOk result (λ copies. copies.items ≡ of_class class profiles.now) }
    ensures sound { IfOk result (λ copies. AreProfiles copies.items) }
{
    let mut copies = Vec::new(alloc);
    for profile in profiles.iter() {
        if profile.is_of(class) {
            copies.push(profile.clone()?)?;
        }
    }
    Ok(copies)
}

/// A source of the profiles of a whole class.
pub trait ClassProfiles {
    /// The profiles, in the order of their patterns.
    ghost profiles: { Self → List TheProfile };

    /// Copies of the profiles of a class, in the order of their patterns.
    fn all(&self, alloc: Global, class: Class) -> Result<Vec<Profile>, StoreFault>
        ensures profiles { IfOk result (λ found. found.items ≡ of_class class (profiles self.now)) }
        ensures sound { IfOk result (λ found. AreProfiles found.items) }
        ensures fault { IsOkUnless result NoMemory };

    /// The first profile of a class, in the order of the patterns, that covers a resource, and how many were read for
    /// it.
    fn first(&self, class: Class, resource: &Resource) -> Result<Taken, StoreFault>
        ensures first { IfOk result (λ taken.
            taken.profile ≡ deciding (of_class class (profiles self.now)) resource.now) }
        ensures rows { IfOk result (λ taken.
            taken.rows ≡ length (read_until taken.profile (of_class class (profiles self.now)))) }
        ensures fault { IsOkUnless result NoMemory };
}

impl ClassProfiles for Policy {
    ghost profiles = { λ policy. policy.profiles };

    fn all(&self, alloc: Global, class: Class) -> Result<Vec<Profile>, StoreFault> {
        Ok(copies_of(alloc, &self.profiles, class)?)
    }

    fn first(&self, class: Class, resource: &Resource) -> Result<Taken, StoreFault> {
        Ok(first_chosen(&self.profiles, class, None, resource)?)
    }
}

impl ProfileSource for Policy {
    ghost use Rattle.std.specs.Prelude.{◌≡◌, ⊤, refl};
    ghost use Rattle.std.proofs.Common.{◌∙◌};
    ghost use Rattle.opc_terms.specs.declared.store_fault.StoreFault.TheVariants.{NoMemory};

    ghost has = { λ policy profiles. profiles ≡ policy.profiles };

    ghost is_ready = { λ _. ⊤ };

    ghost is_faithful = { λ _. ⊤ };

    ghost is_open = { λ _. ⊤ };

    // A search changes nothing in a policy, its classes included.
    ghost is_kept = { λ old new. new ≡ old };

    ghost kept_itself = { λ policy. refl };

    ghost kept_again = { λ policy next last same same_again. same_again ∙ same };

    ghost can_fail_with = { λ fault. fault ≡ NoMemory };

    fn first_in(
        &mut self,
        class: Class,
        head: &str,
        resource: &Resource,
    ) -> Result<Taken, StoreFault> {
        Ok(first_chosen(&self.profiles, class, Some(head), resource)?)
    }
}

fn is_chosen(profile: &Profile, class: Class, head: Option<&str>) -> bool
    ensures { result ≡ is_chosen class (option_copied head.entry) profile.now }
{
    match head {
        Some(head) => profile.is_of(class) && profile.pattern.head() == head,
        None => profile.is_of(class),
    }
}
