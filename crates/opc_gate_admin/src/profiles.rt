//! What is done to profiles and their access lists.
ghost use Rattle.std.specs.Prelude.{◌≡◌, [], is_some};
ghost use Rattle.opc_policy_members.specs.Profiles.{profile_of};
ghost use Rattle.opc_policy_members.specs.Taken.{has_holder};
ghost use Rattle.opc_state.specs.Asked.{Loads};
ghost use Rattle.opc_state.specs.Invariants.{IsKeyed};
ghost use Rattle.opc_machine.specs.declared.operation.Operation.TheVariants as operation;
ghost use Rattle.opc_machine.specs.Administration.{policy_changed};
ghost use Rattle.opc_machine.specs.Effects.{IsOutcome};
ghost use Rattle.opc_gate_admin.specs.Operations.{has_level, level_in, policy_outcome, same_definition};

use crate::outcomes::{done_by, exists, missing};
use opc_machine::outcome::{Outcome, done, refused};
use opc_machine::same::same_flag;
use opc_names::class::Class;
use opc_names::level::Level;
use opc_names::name::{ConsoleName, Pattern};
use opc_policy_members::entry::Entry;
use opc_policy_members::profile::Profile;
use opc_state::change::Edit;
use opc_state::tables::Tables;
use opc_terms::entry_id::EntryId;
use opc_terms::fault::{Fault, Subject};
use opc_terms::store_fault::StoreFault;
use std::alloc::Global;

fn is_defined<T: Tables>(
    tables: &mut T,
    alloc: Global,
    class: Class,
    pattern: &Pattern,
) -> Result<bool, StoreFault>
    ensures { Loads T.meaning tables.old tables.new result
        (λ s defined. defined ≡ is_some (profile_of s.policy.profiles class pattern.now)) }
{
    match tables.definition(alloc, class, pattern)? {
        Some(_) => Ok(true),
        None => Ok(false),
    }
}

// Whether an entry may be for this id: a user or a group that is stored, or everyone.
fn has_holder<T: Tables>(tables: &mut T, id: &EntryId) -> Result<bool, StoreFault>
    ensures { Loads T.meaning tables.old tables.new result (λ s there. there ≡ has_holder s.policy id.now) }
{
    Ok(id.text() == "*" || tables.has_user(id.text())? || tables.has_group(id.text())?)
}

// The level of the entry for an id in the access list of a profile, at one console or, if none is given, at every
// console; and whether there is such a profile. The access list of a profile that is not there is empty, so an entry
// shows that its profile is there. Only without an entry is the profile loaded, so that its fault comes first.
fn level_in<T: Tables>(
    tables: &mut T,
    alloc: Global,
    class: Class,
    pattern: &Pattern,
    id: &EntryId,
    when: &Option<ConsoleName>,
) -> Result<Option<Option<Level>>, StoreFault>
    ensures { Loads T.meaning tables.old tables.new result
        (λ s level. level ≡ level_in s.policy class pattern.now id.now when.now) }
{
    match tables.level_for(class, pattern, id, when.as_ref())? {
        Some(level) => Ok(Some(Some(level))),
        None => {
            if is_defined(tables, alloc, class, pattern)? {
                Ok(Some(None))
            } else {
                Ok(None)
            }
        }
    }
}

#[tactic(auto, using(crate::proofs::Same::same_levels))]
fn has_level(held: Option<Level>, level: Level) -> bool
    ensures { result ≡ has_level held level }
{
    match held {
        Some(held) => held == level,
        None => false,
    }
}

#[tactic(auto, using(crate::proofs::Same::same_levels))]
fn same_definition(profile: &Profile, other: &Profile) -> bool
    ensures { result ≡ same_definition profile.now other.now }
{
    profile.owner == other.owner
        && profile.uacc == other.uacc
        && same_flag(profile.warning, other.warning)
}

/// A profile with an empty access list, unless there is one of its class and pattern (E52). Its owner is stored (E53).
pub(crate) fn rdefine<T: Tables>(
    tables: &mut T,
    alloc: Global,
    profile: Profile,
) -> Result<Outcome, StoreFault>
    requires { profile.entries ≡ [] }
    ensures { Loads T.meaning tables.old tables.new result (λ s o.
        IsOutcome s (policy_outcome s (policy_changed s.board
        (operation.RDefine profile.class profile.pattern profile.owner profile.uacc profile.warning) s.policy)) o) }
{
    if is_defined(tables, alloc, profile.class, &profile.pattern)? {
        return exists(&profile.pattern);
    }
    if !tables.has_user(profile.owner.text())? {
        return missing(&profile.owner);
    }
    done_by(alloc, Edit::PutProfile(profile))
}

/// A profile that is there gets a new definition, and keeps its access list. It and its owner are stored (E53).
pub(crate) fn ralter<T: Tables>(
    tables: &mut T,
    alloc: Global,
    profile: Profile,
) -> Result<Outcome, StoreFault>
    requires { profile.entries ≡ [] }
    ensures { Loads T.meaning tables.old tables.new result (λ s o. IsKeyed s →
        IsOutcome s (policy_outcome s (policy_changed s.board
        (operation.RAlter profile.class profile.pattern profile.owner profile.uacc profile.warning) s.policy)) o) }
{
    let Some(stored) = tables.definition(alloc, profile.class, &profile.pattern)? else {
        return missing(&profile.pattern);
    };
    if !tables.has_user(profile.owner.text())? {
        return missing(&profile.owner);
    }
    if same_definition(&stored, &profile) {
        return done(alloc, Vec::new(alloc), None);
    }
    done_by(alloc, Edit::PutProfile(profile))
}

/// A profile that is there (E53) is removed with its access list.
pub(crate) fn rdelete<T: Tables>(
    tables: &mut T,
    alloc: Global,
    class: Class,
    pattern: &Pattern,
) -> Result<Outcome, StoreFault>
    ensures { Loads T.meaning tables.old tables.new result (λ s o.
        IsOutcome s (policy_outcome s (policy_changed s.board (operation.RDelete class pattern.now) s.policy)) o) }
{
    if !is_defined(tables, alloc, class, pattern)? {
        return missing(pattern);
    }
    done_by(alloc, Edit::RemoveProfile(class, *pattern))
}

/// An entry of the access list of a profile that is there, for a user or a group that is stored or for everyone (E53).
#[tactic(auto, using(crate::proofs::Permitting::profile_there))]
pub(crate) fn permit<T: Tables>(
    tables: &mut T,
    alloc: Global,
    class: Class,
    pattern: &Pattern,
    entry: Entry,
) -> Result<Outcome, StoreFault>
    ensures { Loads T.meaning tables.old tables.new result (λ s o. IsKeyed s →
        IsOutcome s (policy_outcome s (policy_changed s.board
        (operation.Permit class pattern.now entry.id entry.level entry.when) s.policy)) o) }
{
    let Some(stored) = level_in(tables, alloc, class, pattern, &entry.id, &entry.when)? else {
        return missing(pattern);
    };
    if !has_holder(tables, &entry.id)? {
        return refused(Fault::Missing(Subject::of_entry(&entry.id)), None);
    }
    if has_level(stored, entry.level) {
        return done(alloc, Vec::new(alloc), None);
    }
    done_by(alloc, Edit::PutEntry(class, *pattern, entry))
}

/// The entry for an id, and for one console alone or for every console, is removed. It and its profile are there (E53).
#[tactic(auto, using(crate::proofs::Permitting::profile_there, crate::proofs::Permitting::permitted_there))]
pub(crate) fn permit_delete<T: Tables>(
    tables: &mut T,
    alloc: Global,
    class: Class,
    pattern: &Pattern,
    id: &EntryId,
    when: Option<ConsoleName>,
) -> Result<Outcome, StoreFault>
    ensures { Loads T.meaning tables.old tables.new result (λ s o.
        IsOutcome s (policy_outcome s (policy_changed s.board (operation.PermitDelete class pattern.now id.now when)
        s.policy)) o) }
{
    match level_in(tables, alloc, class, pattern, id, &when)? {
        None => missing(pattern),
        Some(None) => refused(Fault::Missing(Subject::of_entry(id)), None),
        Some(Some(_)) => done_by(alloc, Edit::RemoveEntry(class, *pattern, *id, when)),
    }
}
