//! The profiles of a policy.
ghost use Rattle.std.specs.Prelude.{◌≡◌, ◌<◌, ◌^◌, [], IfOk, OnOk, OnErr, find, is_some, length, true, Some, None};
ghost use Rattle.std.specs.Option.{option_copied};
ghost use Rattle.opc_names.specs.Order.{sort_key};
ghost use Rattle.opc_policy_members.specs.Profiles.{
  AreProfiles,
  AreMostSpecificFirst,
  profile_of,
  with_profile,
  with_definition,
  with_permission,
  is_of_from,
};
ghost use Rattle.opc_policy_members.specs.Stored.{key_bound};

use crate::entry::Entry;
use crate::profile::Profile;
use opc_names::class::Class;
use opc_names::name::Pattern;
use opc_names::pattern::SortKey;
use std::alloc::{AllocError, Global};
use std::collections::BTreeMap;
use std::collections::btree_map::Values;
use std::marker::Model;
use std::ops::Bound;

/// Where the keys of a class start that are at a sort key or after it.
fn key_bound(class: Class, start: Bound<SortKey>) -> Bound<(Class, SortKey)>
    ensures { result ≡ key_bound class start }
{
    match start {
        Bound::Included(key) => Bound::Included((class, key)),
        Bound::Excluded(key) => Bound::Excluded((class, key)),
        Bound::Unbounded => Bound::Included((class, SortKey::copied(&[]))),
    }
}

/// The profiles of a policy, by class and then by pattern, in the order of the patterns.
#[derive(Drop)]
pub struct Profiles {
    by_key: BTreeMap<(Class, SortKey), Profile>,
}

impl Model for Profiles {
    ghost use Rattle.std.specs.Prelude.{List};
    ghost use Rattle.std.specs.BTreeMap.{values};
    ghost use Rattle.opc_policy_members.specs.declared.profile.Profile.{Profile};
    ghost use Rattle.opc_policy_members.specs.Stored.{AreByKey};

    ghost Value = { List Profile };

    ghost view = { λ p. values p.by_key };

    ghost invariant = { λ p. AreByKey p.by_key.entries };
}

impl Profiles {
    /// No profiles.
    pub fn new(alloc: Global) -> Self
        ensures { result ≡ [] }
    {
        Profiles {
            by_key: BTreeMap::new(alloc),
        }
    }

    /// The profiles, by class and then in the order of their patterns.
    pub fn iter(&self) -> Values<'_, (Class, SortKey), Profile>
        ensures rest { result ≡ self.now }
        ensures profiles { AreProfiles self.now }
        ensures in_order { AreMostSpecificFirst self.now }
        ensures fits { length self.now < 2 ^ 63 }
    {
        self.by_key.values()
    }

    /// The profile of a class and a pattern.
    pub fn get(&self, class: Class, pattern: &Pattern) -> Option<&Profile>
        ensures { option_copied result ≡ profile_of self.now class pattern.now }
    {
        self.by_key.get(&(class, pattern.sort_key()))
    }

    /// The first profile of a class whose sort key is at a start or after it.
    pub fn first_from(&self, class: Class, start: Bound<SortKey>) -> Option<&Profile>
        ensures first { option_copied result ≡ find (is_of_from class start) self.now }
        ensures profiles { AreProfiles self.now }
        ensures in_order { AreMostSpecificFirst self.now }
    {
        let keys = (key_bound(class, start), Bound::Unbounded);
        match self.by_key.range(keys).next() {
            Some((_, profile)) if profile.is_of(class) => Some(profile),
            // None is left, or one of the other class, and no later one is of this class.
            _ => None,
        }
    }

    /// Puts a profile in the place of the one of its class and pattern, which it returns.
    fn put(&mut self, profile: Profile) -> Result<Option<Profile>, AllocError>
        ensures ok { OnOk result (self.new ≡ with_profile profile self.old) }
        ensures replaced { IfOk result (λ replaced. replaced ≡ profile_of self.old profile.class profile.pattern) }
        ensures there { OnOk result (profile_of self.new profile.class profile.pattern ≡ Some profile) }
        ensures err { OnErr result (self.new ≡ self.old) }
        ensures absent { OnErr result (profile_of self.old profile.class profile.pattern ≡ None) }
    {
        let key = (profile.class, profile.pattern.sort_key());
        let replaced = self.by_key.insert(key, profile)?;
        Ok(replaced)
    }

    /// Defines a profile. If there is one of its class and pattern, the new one takes its place and keeps the access
    /// list that is there (RACF guide: RDEFINE and RALTER).
    pub fn define(&mut self, profile: Profile) -> Result<(), AllocError>
        ensures ok { OnOk result (self.new ≡ with_definition profile self.old) }
        ensures err { OnErr result (self.new ≡ self.old) }
    {
        let (class, pattern, owner) = (profile.class, profile.pattern, profile.owner);
        let (uacc, warning) = (profile.uacc, profile.warning);
        // The profile is put at once, and put again with the old access list if it replaced one: a new profile, as most
        // rows are, costs one look-up. The second put allocates nothing, so a definition happens whole or changes
        // nothing.
        if let Some(replaced) = self.put(profile)? {
            self.put(Profile {
                class,
                pattern,
                owner,
                uacc,
                warning,
                entries: replaced.entries,
            })?;
        }
        Ok(())
    }

    /// One more entry in the access list of a profile, in the place of the one for its id and console (RACF guide:
    /// PERMIT), and whether there is such a profile. If there is none, nothing changes.
    pub fn permit(
        &mut self,
        class: Class,
        pattern: &Pattern,
        entry: Entry,
    ) -> Result<bool, AllocError>
        ensures ok { OnOk result (self.new ≡ with_permission class pattern.now entry self.old) }
        ensures found { IfOk result (λ found. found ≡ is_some (profile_of self.old class pattern.now)) }
        ensures err { OnErr result (self.new ≡ self.old) }
        ensures there { OnErr result (is_some (profile_of self.old class pattern.now) ≡ true) }
    {
        let key = pattern.sort_key();
        let Some(stored) = self.by_key.get_mut(&(class, key)) else {
            return Ok(false);
        };
        stored.entries.set(entry)?;
        Ok(true)
    }
}
