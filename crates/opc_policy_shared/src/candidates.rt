//! The profiles that may cover names with the same beginning, in the order of their patterns.
ghost use Rattle.std.specs.Prelude.{
  ◌≡◌,
  ◌↔◌,
  ◌≤◌,
  ◌<◌,
  ℕ,
  IfOk,
  IsTrue,
  MatchOption,
  None,
  length,
  slice_get,
  slice_index_or,
  true,
};
ghost use Rattle.std.specs.Cmp.Lexicographic.{slice_cmp};
ghost use Rattle.std.specs.List.Sorted.{IsPermutation};
ghost use Rattle.std.specs.Ordering.{nat_cmp, is_lt};
ghost use Rattle.opc_names.specs.Names.{IsPattern};
ghost use Rattle.opc_names.specs.Order.{sort_key};
ghost use Rattle.opc_names.specs.Patterns.{CoversText};
ghost use Rattle.opc_policy.specs.Deciding.{deciding};
ghost use Rattle.opc_policy_members.specs.declared.profile.Profile.{Profile as TheProfile};

use opc_names::name::Resource;
use opc_names::pattern::SortKey;
use opc_names_keys::past::{key_past, with_period};
use opc_policy_members::profile::Profile;
use std::alloc::{AllocError, Global};
use std::marker::Model;

/// A profile with the sort key of its pattern, which is computed once.
#[derive(Drop)]
struct Candidate {
    key: SortKey,
    profile: Profile,
}

impl Model for Candidate {
    ghost use Rattle.std.specs.Prelude.{◌≡◌};
    ghost use Rattle.opc_names.specs.Order.{sort_key};
    ghost use Rattle.opc_policy_members.specs.declared.profile.Profile.{Profile};

    ghost Value = { Profile };

    ghost view = { λ c. c.profile };

    ghost invariant = { λ c. c.key ≡ sort_key c.profile.pattern };
}

impl Candidate {
    fn of(profile: Profile) -> Self
        ensures value { result ≡ profile }
        ensures valid { IsPattern profile.pattern }
    {
        Candidate {
            key: profile.pattern.sort_key(),
            profile,
        }
    }

    fn key(&self) -> SortKey
        ensures { result ≡ sort_key self.now.pattern }
    {
        self.key
    }

    /// Whether the pattern covers a name.
    fn covers(&self, resource: &Resource) -> bool
        ensures { IsTrue result ↔ CoversText self.now.pattern resource.now }
    {
        self.profile.pattern.covers(resource)
    }

    /// Whether its sort key is below another.
    fn is_below(&self, key: &SortKey) -> bool
        ensures { result ≡ is_lt (slice_cmp nat_cmp (sort_key self.now.pattern) key.now) }
    {
        self.key < *key
    }
}

/// Profiles in the order of their patterns, to be searched for the first that covers a name.
#[derive(Drop)]
pub struct Candidates {
    list: Vec<Candidate>,
}

impl Model for Candidates {
    ghost use Rattle.std.specs.Prelude.{List};
    ghost use Rattle.opc_policy_members.specs.declared.profile.Profile.{Profile};
    ghost use Rattle.opc_policy_shared.specs.Shared.{AreSearchable};

    ghost Value = { List Profile };

    ghost view = { λ c. c.list.items };

    ghost invariant = { λ c. AreSearchable c.list.items };
}

impl Candidates {
    /// These profiles, which are put into their order.
    pub fn of(alloc: Global, profiles: Vec<Profile>) -> Result<Self, AllocError>
        ensures { IfOk result (λ candidates. IsPermutation profiles.items candidates) }
    {
        let mut list = Vec::new(alloc);
        for profile in profiles {
            list.push(Candidate::of(profile))?;
        }
        list.sort_unstable_by_key(|candidate| candidate.key());
        Ok(Candidates { list })
    }

    /// How many there are.
    pub fn len(&self) -> usize
        ensures { result ≡ length self.now }
    {
        self.list.len()
    }

    /// The profile in a place.
    pub fn at(&self, place: usize) -> &Profile
        requires { place < length self.now }
        ensures { slice_get self.now place ≡ Some result.now }
    {
        &self.list[place].profile
    }

    /// The place of the profile that decides a name among them: the first that covers it. If the name differs from the
    /// key of a pattern before its first `*` or `**`, all patterns that differ from it there are skipped together.
    pub fn deciding(&self, resource: &Resource) -> Option<usize>
        ensures { MatchOption result (deciding self.now resource.now ≡ None) (λ place.
            (place < length self.now) × (slice_get self.now place ≡ deciding self.now resource.now)) }
    {
        let name = with_period(resource);
        let mut place = 0;
        while place < self.len() {
            let candidate = &self.list[place];
            if let Some(past) = key_past(&candidate.key(), name.as_slice()) {
                place = self.place_from(place + 1, &past);
            } else if candidate.covers(resource) {
                return Some(place);
            } else {
                place += 1;
            }
        }
        None
    }

    /// The first place from one on whose sort key is not below another.
    fn place_from(&self, from: usize, key: &SortKey) -> usize
        requires { from ≤ length self.now }
        ensures within { (from ≤ result) × (result ≤ length self.now) }
        ensures below { (k : ℕ) (d : TheProfile) → from ≤ k → k < result
            → is_lt (slice_cmp nat_cmp (sort_key (slice_index_or self.now k d).pattern) key.now) ≡ true }
    {
        let mut low = from;
        let mut high = self.len();
        'places: while low < high {
            let middle = low + (high - low) / 2;
            if self.list[middle].is_below(key) {
                low = middle + 1;
            } else {
                high = middle;
            }
        }
        low
    }
}
