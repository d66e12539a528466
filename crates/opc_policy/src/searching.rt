//! The search for the deciding profile.
ghost use Rattle.std.specs.Prelude.{◌≡◌, ◌≤◌, ◌+◌, ◌^◌, ◌⊎◌, IfOk, IfErr, List, MatchResult, length};
ghost use Rattle.opc_terms.specs.declared.store_fault.StoreFault.TheVariants.{Store};
ghost use Rattle.opc_policy_members.specs.Profiles.{AreProfiles, of_class};
ghost use Rattle.opc_policy_members.specs.declared.profile.Profile.{Profile as TheProfile};
ghost use Rattle.opc_policy.specs.Deciding.{IsDeciding, deciding};
ghost use Rattle.opc_policy.specs.Examined.{examined, head_length};

use crate::source::{ProfileSource, Taken};
use opc_names::class::Class;
use opc_names::name::Resource;
use opc_policy_members::profile::Profile;
use opc_terms::store_fault::StoreFault;

/// The deciding profile, how often the source was asked, and how many profiles it read.
#[derive(Drop)]
pub struct Found {
    pub profile: Option<Profile>,
    pub ranges: u32,
    pub rows: u64,
}

/// The profile of a class that decides a resource. The source is asked for the prefixes of the name as heads, from the
/// whole name down to the empty one, until a profile covers; no two patterns are compared.
pub fn search<S: ProfileSource>(
    source: &mut S,
    class: Class,
    resource: &Resource,
) -> Result<Found, StoreFault>
    requires { S.is_ready source.old }
    ensures ready { S.is_ready source.new }
    ensures kept { S.is_kept source.old source.new }
    ensures answered { IfOk result (λ _. S.is_open source.new) }
    ensures profiles { (profiles : List TheProfile) → S.has source.old profiles → S.is_faithful source.new
        → AreProfiles profiles }
    ensures most_specific { (profiles : List TheProfile) → S.has source.old profiles
        → IfOk result (λ found. S.is_faithful source.new →
        IsDeciding (of_class class profiles) resource.now found.profile) }
    ensures deciding { (profiles : List TheProfile) → S.has source.old profiles
        → IfOk result (λ found. S.is_faithful source.new →
        found.profile ≡ deciding (of_class class profiles) resource.now) }
    ensures ranges { (profiles : List TheProfile) → S.has source.old profiles
        → IfOk result (λ found. S.is_faithful source.new →
        found.ranges + head_length found.profile ≡ length resource.now + 1) }
    ensures rows { (profiles : List TheProfile) → S.has source.old profiles
        → IfOk result (λ found. S.is_faithful source.new →
        found.rows ≡ length (examined found.profile resource.now (of_class class profiles))) }
    // Besides the faults of the source: the count of what was read does not fit.
    ensures fault { (profiles : List TheProfile) → S.has source.old profiles → S.is_faithful source.new
        → IfErr result (λ fault.
        S.can_fail_with fault ⊎ ((fault ≡ Store) × (2 ^ 64 ≤ length profiles))) }
    ensures same { (profiles : List TheProfile) → S.has source.old profiles → S.is_faithful source.new
        → S.is_open source.new → S.has source.new profiles }
    ensures faithful { S.is_faithful source.new → S.is_faithful source.old }
{
    let name = resource.text();
    let mut rows = 0;
    let mut length = name.len();
    'heads: loop {
        let taken = source.first_in(class, &name[..length], resource)?;
        let Taken {
            profile,
            rows: read,
        } = taken;
        rows = sum(rows, read)?;
        if profile.is_some() || length == 0 {
            let ranges = (name.len() + 1 - length) as u32;
            return Ok(Found {
                profile,
                ranges,
                rows,
            });
        }
        length -= 1;
    }
}

fn sum(rows: u64, read: u64) -> Result<u64, StoreFault>
    ensures { MatchResult result (λ sum. sum ≡ rows + read) (λ fault. (fault ≡ Store) × (2 ^ 64 ≤ rows + read)) }
{
    rows.checked_add(read).ok_or(StoreFault::Store)
}
