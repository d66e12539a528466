//! Where profiles come from.
ghost use Rattle.std.specs.Prelude.{◌≡◌, List, IfOk, IfErr, length};
ghost use Rattle.opc_policy_members.specs.Profiles.{AreProfiles, of_class};
ghost use Rattle.opc_policy.specs.Deciding.{deciding};
ghost use Rattle.opc_policy.specs.Examined.{with_head, read_until};
ghost use Rattle.opc_policy_members.specs.declared.profile.Profile.{Profile as TheProfile};
ghost use Rattle.opc_terms.specs.declared.store_fault.StoreFault.{StoreFault as TheFault};

use opc_names::class::Class;
use opc_names::name::Resource;
use opc_policy_members::profile::Profile;
use opc_terms::store_fault::StoreFault;
use std::alloc::AllocError;

/// The first profile that covers a resource, and how many profiles were read for it.
#[derive(Drop)]
pub struct Taken {
    pub profile: Option<Profile>,
    pub rows: u64,
}

impl Taken {
    /// A copy of the profile that was found.
    pub(crate) fn of(profile: &Profile, rows: u64) -> Result<Self, AllocError>
        ensures { IfOk result (λ taken. (taken.profile ≡ Some profile.now) × (taken.rows ≡ rows)) }
    {
        Ok(Taken {
            profile: Some(profile.clone()?),
            rows,
        })
    }
}

/// Where profiles come from: of one class and with one head at a time, by one call, so that a search cannot read more
/// than its heads give. For all profiles of a class, or the first that covers, ask a policy by `ClassProfiles`, or the
/// store by `all` and `first`. A source over files may fail for good while it is searched, so an answer counts only if
/// the source is faithful afterwards.
pub trait ProfileSource {
    /// These are the profiles, as it gives them. A relation, since tables have them as rows.
    ghost has: { Self → List TheProfile → Type 0 };

    /// It may be asked.
    ghost is_ready: { Self → Type 0 };

    /// If this holds after a call, an answer is about the profiles that were there before, and as long as the source is
    /// open they are still there.
    ghost is_faithful: { Self → Type 0 };

    /// What a search leaves of the source as it was before, whatever its result.
    ghost is_kept: { Self → Self → Type 0 };

    /// It is still open, as a source that has answered is.
    ghost is_open: { Self → Type 0 };

    /// The faults with which a search may end.
    ghost can_fail_with: { TheFault → Type 0 };

    /// The first profile, in the order of the patterns, that covers a resource, of those of a class with this
    /// very head, and how many profiles were read for it.
    fn first_in(
        &mut self,
        class: Class,
        head: &str,
        resource: &Resource,
    ) -> Result<Taken, StoreFault>
        requires { is_ready self.old }
        ensures ready { is_ready self.new }
        ensures kept { is_kept self.old self.new }
        ensures answered { IfOk result (λ _. is_open self.new) }
        ensures profiles { (profiles : List TheProfile) → has self.old profiles → is_faithful self.new
            → AreProfiles profiles }
        ensures first { (profiles : List TheProfile) → has self.old profiles
            → IfOk result (λ taken. is_faithful self.new →
            taken.profile ≡ deciding (with_head head.now (of_class class profiles)) resource.now) }
        ensures rows { (profiles : List TheProfile) → has self.old profiles
            → IfOk result (λ taken. is_faithful self.new →
            taken.rows ≡ length (read_until taken.profile (with_head head.now (of_class class profiles)))) }
        ensures fault { IfErr result can_fail_with }
        ensures same { (profiles : List TheProfile) → has self.old profiles → is_faithful self.new → is_open self.new
            → has self.new profiles }
        ensures faithful { is_faithful self.new → is_faithful self.old };

    /// The source is kept if nothing is searched, and if one search follows another.
    ghost kept_itself: { (source : Self) → is_kept source source };

    ghost kept_again: { (source next last : Self) → is_kept source next → is_kept next last → is_kept source last };
}
