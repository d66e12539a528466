//! Edits of the policy, as records of a policy file.
use crate::records::row_in;
use anyhow::{Context, Result, bail};
use opc_board::rows::ConsoleRow;
use opc_names::level::Level;
use opc_policy_members::connect::Connect;
use opc_policy_members::entries::Entries;
use opc_policy_members::entry::Entry;
use opc_policy_members::profile::Profile;
use opc_policy_members::row::Row;
use opc_state::change::Edit;
use opc_terms::entry_id::EntryId;
use std::alloc::Global;

/// The edit that puts a row, a profile without an access list.
pub fn put(alloc: Global, row: Row) -> Edit {
    match row {
        Row::Class { class, active } => Edit::SetActive(class, active),
        Row::Group { name } => Edit::PutGroup(name),
        Row::User(user) => Edit::PutUser(user),
        Row::Connect { user, group } => Edit::PutConnect(Connect { user, group }),
        Row::Console { name, auth, mode } => Edit::PutConsole(ConsoleRow {
            name,
            auth,
            mode,
            online: false,
            user: None,
            monitor: false,
        }),
        Row::Profile {
            class,
            pattern,
            uacc,
            owner,
            warning,
        } => Edit::PutProfile(Profile {
            class,
            pattern,
            owner,
            uacc,
            warning,
            entries: Entries::new(alloc),
        }),
        Row::Permit {
            class,
            pattern,
            id,
            level,
            when,
        } => Edit::PutEntry(class, pattern, Entry { id, when, level }),
    }
}

/// The edit that puts a profile with one entry, an id and the record of the profile.
pub fn listed(alloc: Global, words: &str) -> Result<Edit> {
    let (id, record) = words.split_once(' ').context("no record")?;
    let mut entries = Entries::new(alloc);
    entries.set(Entry {
        id: EntryId::read(id)?,
        when: None,
        level: Level::Read,
    })?;
    match put(alloc, row_in(alloc, record)?) {
        Edit::PutProfile(profile) => Ok(Edit::PutProfile(Profile { entries, ..profile })),
        _ => bail!("no profile"),
    }
}

/// The edit that removes what has the key of a row.
pub fn removed(row: Row) -> Result<Edit> {
    match row {
        Row::Group { name } => Ok(Edit::RemoveGroup(name)),
        Row::User(user) => Ok(Edit::RemoveUser(user.id)),
        Row::Connect { user, group } => Ok(Edit::RemoveConnect(Connect { user, group })),
        Row::Profile { class, pattern, .. } => Ok(Edit::RemoveProfile(class, pattern)),
        Row::Permit {
            class,
            pattern,
            id,
            when,
            ..
        } => Ok(Edit::RemoveEntry(class, pattern, id, when)),
        _ => bail!("no row of the policy is removed so"),
    }
}
