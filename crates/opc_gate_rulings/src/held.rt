//! What a user holds in a profile of the policy, by the shorter of its access list and the user's groups.
ghost use Rattle.std.specs.Prelude.{◌≡◌, Some, IfOk, IfSome};
ghost use Rattle.std.specs.Option.{option_copied};
ghost use Rattle.opc_policy_members.specs.Access.{entry_level, first_level, highest_level};
ghost use Rattle.opc_policy_members.specs.Held.{held, listed_groups};
ghost use Rattle.opc_policy_members.specs.Members.{groups_of};
ghost use Rattle.opc_state.specs.Asked.{Loads};
ghost use Rattle.opc_state.specs.Loads.{access_list};
ghost use Rattle.opc_gate_rulings.specs.Held.{held_in, with_list};

use opc_names::level::Level;
use opc_names::name::{ConsoleName, GroupName, UserId};
use opc_policy_members::entries::{Entries, EntryLevels, higher};
use opc_policy_members::entry::Entry;
use opc_policy_members::profile::Profile;
use opc_policy_members::user::User;
use opc_state::tables::Tables;
use opc_terms::entry_id::EntryId;
use opc_terms::store_fault::StoreFault;
use std::alloc::Global;

/// How many entries, and how many groups, are loaded at first: more than most access lists have. 14 by measurement:
/// with 16, 3,000 entries cost more than twice what ten cost; with 12, a refusal by ten entries cost 15 % more.
const FIRST: u32 = 14;

/// An access list of at most this many entries is searched by its entries at once: loading the user's groups is a query
/// as well.
const FEW: usize = 1;

/// The level that a user holds at a console in a profile, whose access list is still in the tables. More and more of
/// the access list and of the user's groups are loaded, until one of them is whole; then it decides what is looked up
/// in the other. So rows and look-ups are in proportion to the shorter of both; a list in memory is searched by halves.
pub(crate) fn level_on<T: Tables>(
    tables: &mut T,
    alloc: Global,
    profile: &Profile,
    user: &User,
    console: &ConsoleName,
) -> Result<Level, StoreFault>
    ensures { Loads T.meaning tables.old tables.new result
        (λ s level. level ≡ held_in s.policy profile.now user.now console.now) }
{
    let mut most = FIRST;
    // Sixteen rounds suffice if one of the lists has fewer than 4,294,967,295 members; otherwise the request is
    // aborted. Which list is shorter is not known in advance, and counting would read the longer one.
    for _ in 0..16 {
        if let Some(level) = level_within(tables, alloc, profile, user, console, most)? {
            return Ok(level);
        }
        most = most.saturating_mul(4);
    }
    Err(StoreFault::NoMemory)
}

// The same, if the access list or the list of groups has fewer members than this.
fn level_within<T: Tables>(
    tables: &mut T,
    alloc: Global,
    profile: &Profile,
    user: &User,
    console: &ConsoleName,
    most: u32,
) -> Result<Option<Level>, StoreFault>
    ensures { Loads T.meaning tables.old tables.new result
        (λ s found. IfSome found (λ level. level ≡ held_in s.policy profile.now user.now console.now)) }
{
    let entries = tables.entries(alloc, profile.class, &profile.pattern, most)?;
    let is_whole = entries.as_slice().len() < most as usize;
    if is_whole && entries.as_slice().len() <= FEW {
        let level = level_by_entries(tables, alloc, profile, entries, user, console)?;
        return Ok(Some(level));
    }
    let groups = tables.groups_of(alloc, &user.id, most)?;
    let are_all = groups.len() < most as usize;
    match (is_whole, are_all) {
        (true, true) => {
            let level = level_by_list(profile, entries, user, console, groups.as_slice());
            Ok(Some(level))
        }
        (true, false) => {
            let level = level_by_entries(tables, alloc, profile, entries, user, console)?;
            Ok(Some(level))
        }
        (false, true) => {
            let level = level_by_groups(tables, profile, user, console, groups.as_slice())?;
            Ok(Some(level))
        }
        (false, false) => Ok(None),
    }
}

// The level by a whole access list that is loaded: of the user's groups, those that have an entry are looked up.
fn level_by_entries<T: Tables>(
    tables: &mut T,
    alloc: Global,
    profile: &Profile,
    entries: Entries,
    user: &User,
    console: &ConsoleName,
) -> Result<Level, StoreFault>
    ensures { Loads T.meaning tables.old tables.new result
        (λ s level. entries ≡ access_list s.policy profile.now.class profile.now.pattern
        → level ≡ held_in s.policy profile.now user.now console.now) }
{
    let groups = listed_groups_of(tables, alloc, user, entries.as_slice())?;
    Ok(level_by_list(profile, entries, user, console, groups.as_slice()))
}

// The level by an access list that is loaded, for a user who is connected to these groups.
fn level_by_list(
    profile: &Profile,
    entries: Entries,
    user: &User,
    console: &ConsoleName,
    groups: &[GroupName],
) -> Level
    ensures { result ≡ held (record profile.now { entries = entries }) user.now (Some console.now) groups.now }
{
    let listed = Profile {
        class: profile.class,
        pattern: profile.pattern,
        owner: profile.owner,
        uacc: profile.uacc,
        warning: profile.warning,
        entries,
    };
    listed.level_of(user, Some(console), groups)
}

// The groups that a user is connected to and that have entries, as often as there are entries.
fn listed_groups_of<T: Tables>(
    tables: &mut T,
    alloc: Global,
    user: &User,
    entries: &[Entry],
) -> Result<Vec<GroupName>, StoreFault>
    ensures { Loads T.meaning tables.old tables.new result
        (λ s groups. groups.items ≡ listed_groups entries.now (groups_of s.policy.connects user.now.id)) }
{
    let mut groups = Vec::new(alloc);
    for entry in entries {
        // Whether the id of an entry is a connect group of the user is looked up by its text: `*` and ids that begin
        // with a digit are not names of groups, and no clause states that no connect in the tables has them.
        if tables.is_connected(&user.id, entry.id.text())? {
            groups.push(group_of(&entry.id)?)?;
        }
    }
    Ok(groups)
}

// The group of an id to which somebody is connected; no other id is in a connect, unless the tables are damaged.
fn group_of(id: &EntryId) -> Result<GroupName, StoreFault>
    ensures { IfOk result (λ name. name ≡ id.now) }
{
    GroupName::read(id.text()).map_err(|_| StoreFault::Store)
}

// The level by lookups of the entries for a user who is connected to these groups.
fn level_by_groups<T: Tables>(
    tables: &mut T,
    profile: &Profile,
    user: &User,
    console: &ConsoleName,
    groups: &[GroupName],
) -> Result<Level, StoreFault>
    ensures { Loads T.meaning tables.old tables.new result
        (λ s level. level ≡ held (with_list s.policy profile.now) user.now (Some console.now) groups.now) }
{
    let plain = first_level_on(tables, profile, None, user, groups)?;
    let conditional = first_level_on(tables, profile, Some(console), user, groups)?;
    Ok(profile.level_from(user, plain, conditional))
}

// The level of the first source among the entries with one condition.
fn first_level_on<T: Tables>(
    tables: &mut T,
    profile: &Profile,
    when: Option<&ConsoleName>,
    user: &User,
    groups: &[GroupName],
) -> Result<Option<Level>, StoreFault>
    ensures { Loads T.meaning tables.old tables.new result
        (λ s level. level ≡ first_level (access_list s.policy profile.now.class profile.now.pattern)
        (option_copied when.entry) user.now groups.now) }
{
    let own = level_of(tables, profile, when, &EntryId::from(user.id))?;
    let highest = highest_level_on(tables, profile, when, groups)?;
    let everyone = level_of(tables, profile, when, &EntryId::everyone())?;
    let sources = EntryLevels {
        own,
        groups: highest,
        everyone,
    };
    Ok(sources.first_level(user))
}

fn level_of<T: Tables>(
    tables: &mut T,
    profile: &Profile,
    when: Option<&ConsoleName>,
    id: &EntryId,
) -> Result<Option<Level>, StoreFault>
    ensures { Loads T.meaning tables.old tables.new result
        (λ s level. level ≡ entry_level (access_list s.policy profile.now.class profile.now.pattern)
        (option_copied when.entry) id.now) }
{
    tables.level_for(profile.class, &profile.pattern, id, when)
}

// The highest level of the entries for groups.
fn highest_level_on<T: Tables>(
    tables: &mut T,
    profile: &Profile,
    when: Option<&ConsoleName>,
    groups: &[GroupName],
) -> Result<Option<Level>, StoreFault>
    ensures { Loads T.meaning tables.old tables.new result
        (λ s level. level ≡ highest_level (access_list s.policy profile.now.class profile.now.pattern)
        (option_copied when.entry) groups.now) }
{
    let mut highest = None;
    for group in groups {
        highest = higher(highest, level_of(tables, profile, when, &id_of(group))?);
    }
    Ok(highest)
}

// The id of the entries for a group.
fn id_of(group: &GroupName) -> EntryId
    ensures { result ≡ group.now }
{
    EntryId::from(group.as_kind())
}
