//! Tables with a cache of which profile decides, and of the flags of the state.
ghost use Rattle.std.specs.Prelude.{◌≡◌, ◌≤◌, [], IfErr, IfOk, OnErr, None, length};
ghost use Rattle.std.specs.List.{list_any};
ghost use Rattle.std.specs.Option.{option_and_then, option_map};
ghost use Rattle.opc_terms.specs.declared.fault.Fault.TheVariants as why;
ghost use Rattle.opc_policy_members.specs.Profiles.{profile_of};
ghost use Rattle.opc_state.specs.Asked.{Answers, Loads};
ghost use Rattle.opc_state.specs.Invariants.{IsKeyed};
ghost use Rattle.opc_state.specs.Loads.{bare};
ghost use Rattle.opc_state.specs.State.{deciding_in};
ghost use Rattle.opc_state_cache.specs.Cache.{
  IsKeptWith,
  invalidates,
  pattern_of,
  adds_or_removes_profile,
  remembered,
};
ghost use Rattle.opc_state_cache.specs.Flags.{known_after, outdates, unknown};
ghost use Rattle.opc_state_cache.specs.Redefining.{redefines};

use crate::deciding_cache::DecidingCache;
use crate::flags::Flags;
use opc_names::class::Class;
use opc_names::name::{Pattern, Resource};
use opc_policy_members::profile::Profile;
use opc_state::change::{Change, Edit};
use opc_state::tables::Tables;
use opc_terms::fault::Fault;
use opc_terms::store_fault::StoreFault;
use std::alloc::Global;

/// Tables that remember which profile decides the most recently requested names, whether the day is halted, and which
/// classes are active. Their answers are those of the tables.
#[derive(Drop)]
pub struct Cached<T: Tables> {
    pub(crate) tables: T,
    pub(crate) recent: DecidingCache,
    pub(crate) flags: Flags,
}

impl<T: Tables> Cached<T> {
    /// These tables, with nothing cached yet. If the allocation fails (E90), they are returned.
    pub fn new(alloc: Global, tables: T) -> Result<Self, (Fault, T)>
        ensures made { IfOk result (λ cached.
            (cached.tables ≡ tables) × (cached.recent ≡ []) × (cached.flags ≡ unknown)) }
        ensures refused { IfErr result (λ back. (back.0 ≡ why.NoMemory) × (back.1 ≡ tables)) }
    {
        match DecidingCache::new(alloc) {
            Ok(recent) => Ok(Cached {
                tables,
                recent,
                flags: Flags::unknown(),
            }),
            Err(_) => Err((Fault::NoMemory, tables)),
        }
    }

    /// How many names are cached, 256 at most.
    pub fn cached(&self) -> u32
        ensures count { result ≡ length self.now.recent }
        ensures most { result ≤ 256 }
    {
        self.recent.len()
    }

    /// The tables, as they are.
    pub fn into_tables(self) -> T
        ensures { result ≡ self.tables }
    {
        self.tables
    }

    /// Asks the tables which profile decides, and remembers that.
    pub(crate) fn search(
        &mut self,
        alloc: Global,
        class: Class,
        resource: &Resource,
    ) -> Result<Option<Profile>, StoreFault>
        ensures found { Loads T.meaning self.old.tables self.new.tables result
            (λ s profile. profile ≡ option_map bare (deciding_in s.policy class resource.now)) }
        ensures keyed { Answers T.meaning self.old.tables self.new.tables result (λ s _. IsKeyed s) }
        ensures keeps { IfOk result (λ profile. IsKeptWith self.old.recent self.new.recent (class, resource.now)
            (option_map pattern_of profile)) }
        ensures failed { OnErr result (self.new.recent ≡ self.old.recent) }
        ensures flags { self.new.flags ≡ self.old.flags }
    {
        let profile = self.tables.deciding(alloc, class, resource)?;
        self.recent.put(class, resource, pattern_of(&profile));
        Ok(profile)
    }

    /// Forgets the flags before a change that sets one, and all names before one that may change which profile decides.
    /// Before the commit, since afterwards the cache would be stale if a commit succeeded but could not report success.
    pub(crate) fn invalidate_for(
        &mut self,
        alloc: Global,
        change: &Change,
    ) -> Result<(), StoreFault>
        ensures forgets { Loads T.meaning self.old.tables self.new.tables result
            (λ s _. self.new.recent ≡ remembered s.policy change.now.edits.items self.old.recent) }
        ensures failed { OnErr result (self.new.recent ≡ self.old.recent) }
        ensures flags { self.new.flags ≡ known_after change.now.edits.items self.old.flags }
    {
        if any_outdates(change.edits.as_slice()) {
            self.flags = Flags::unknown();
        }
        if invalidates(&mut self.tables, alloc, change.edits.as_slice())? {
            self.recent.clear();
        }
        Ok(())
    }
}

fn pattern_of(profile: &Option<Profile>) -> Option<Pattern>
    ensures { result ≡ option_map pattern_of profile.now }
{
    match profile {
        Some(profile) => Some(profile.pattern),
        None => None,
    }
}

/// The profile of a pattern that is known to decide, or none if none does. A hit loads the profile by its key: its
/// definition is not cached, since after an RAlter the same profile decides with another one, and an edit does not
/// state whether its profile is new. It is found by its key because of the order of the keys, which the search returns
/// with its answer and the cache keeps.
pub(crate) fn cached_pattern<T: Tables>(
    tables: &mut T,
    alloc: Global,
    class: Class,
    pattern: Option<Pattern>,
) -> Result<Option<Profile>, StoreFault>
    ensures { Loads T.meaning tables.old tables.new result
        (λ s profile. profile ≡ option_map bare (option_and_then (profile_of s.policy.profiles class) pattern)) }
{
    match pattern {
        Some(pattern) => tables.definition(alloc, class, &pattern),
        None => Ok(None),
    }
}

fn redefines(edit: &Edit) -> bool
    ensures { result ≡ redefines edit.now }
{
    matches!(
        edit,
        Edit::PutProfile(_) | Edit::RemoveProfile(..) | Edit::PutBatch(_)
    )
}

fn outdates(edit: &Edit) -> bool
    ensures { result ≡ outdates edit.now }
{
    match edit {
        Edit::SetActive(..) | Edit::SetHalted(_) => true,
        other => redefines(other),
    }
}

fn any_outdates(edits: &[Edit]) -> bool
    ensures { result ≡ list_any outdates edits.now }
{
    edits.iter().any(outdates)
}

fn any_redefines(edits: &[Edit]) -> bool
    ensures { result ≡ list_any redefines edits.now }
{
    edits.iter().any(redefines)
}

// A profile with another definition decides what it decided before.
fn adds_or_removes_profile<T: Tables>(
    tables: &mut T,
    alloc: Global,
    edit: &Edit,
) -> Result<bool, StoreFault>
    ensures { Loads T.meaning tables.old tables.new result
        (λ s redefines. redefines ≡ adds_or_removes_profile s.policy edit.now) }
{
    let Edit::PutProfile(profile) = edit else {
        return Ok(redefines(edit));
    };
    match tables.definition(alloc, profile.class, &profile.pattern)? {
        Some(_) => Ok(false),
        None => Ok(true),
    }
}

// Whether edits may change which profile decides. The tables are asked only if a profile is among them: one look-up by
// key shows whether a profile that is put is there already. A change without a profile looks up nothing.
fn invalidates<T: Tables>(tables: &mut T, alloc: Global, edits: &[Edit]) -> Result<bool, StoreFault>
    ensures { Loads T.meaning tables.old tables.new result (λ s redecides. redecides ≡ invalidates s.policy edits.now) }
{
    match edits {
        [] => Ok(false),
        [edit] => adds_or_removes_profile(tables, alloc, edit),
        [_, _, ..] => Ok(any_redefines(edits)),
    }
}
