//! The policy by its keys and as a whole, the account, and the batches.
use crate::records::{add_entries, profile_row, profiles_records, records_of};
use crate::words::{add_word, answer_line, ended, fault_line, nothing};
use anyhow::{Context, Result};
use opc_import::write::write_policy;
use opc_names::class::Class;
use opc_names::level::Level;
use opc_names::name::{ConsoleName, Pattern, Resource, UserId};
use opc_policy::explained::explain;
use opc_policy_members::row::Row;
use opc_state::tables::Tables;
use opc_terms::entry_id::EntryId;
use std::alloc::Global;

const CLASS: Class = Class::Opercmds;

/// The class of a word.
pub fn class_of(word: &str) -> Result<Class> {
    Class::read(word).context("no class")
}

/// The class and the pattern of two words.
fn place_of(words: &str) -> Result<(Class, Pattern)> {
    let (class, pattern) = words.split_once(' ').context("no pattern")?;
    Ok((class_of(class)?, Pattern::read(pattern)?))
}

/// The whole policy file.
pub fn file<T: Tables>(alloc: Global, tables: &mut T) -> Result<String> {
    Ok(write_policy(alloc, tables.written(alloc)?.as_slice())?)
}

/// The records of the policy file that are of a kind.
pub fn records<T: Tables>(alloc: Global, tables: &mut T, kind: &str) -> Result<String> {
    let written = file(alloc, tables)?;
    let mut lines = String::new(alloc);
    for record in written.lines() {
        if record
            .split_once(',')
            .is_some_and(|(first, _)| first == kind)
        {
            lines.push_str(record)?;
            lines.push('\n')?;
        }
    }
    ended(alloc, lines)
}

/// Whether the whole policy could be loaded, or the fault.
pub fn policy<T: Tables>(alloc: Global, tables: &mut T) -> Result<String> {
    match tables.policy(alloc) {
        Ok(_) => Ok(String::from_str(alloc, "a policy\n")?),
        Err(fault) => fault_line(alloc, fault),
    }
}

/// What the policy decides for a user, a level and a name.
pub fn explained<T: Tables>(alloc: Global, tables: &mut T, words: &str) -> Result<String> {
    let (user, rest) = words.split_once(' ').context("no level")?;
    let (level, name) = rest.split_once(' ').context("no name")?;
    let (user, name) = (UserId::read(user)?, Resource::read(name)?);
    let level = Level::read(level).context("no level")?;
    let policy = tables.policy(alloc)?;
    let explained = explain(alloc, &policy, CLASS, &name, &user, None, level)?;
    Ok(format!(in alloc; "{explained}")?)
}

/// The record of a user.
pub fn user<T: Tables>(alloc: Global, tables: &mut T, id: &str) -> Result<String> {
    match tables.user(alloc, &UserId::read(id)?)? {
        Some(user) => records_of(alloc, &[Row::User(user)]),
        None => nothing(alloc),
    }
}

/// The groups of a user, as many as requested.
pub fn groups<T: Tables>(alloc: Global, tables: &mut T, key: &str) -> Result<String> {
    let (user, most) = key.split_once(' ').context("no number of groups")?;
    let groups = tables.groups_of(alloc, &UserId::read(user)?, most.parse::<u32>()?)?;
    let mut line = String::new(alloc);
    for group in groups.as_slice() {
        add_word(&mut line, group.text())?;
    }
    ended(alloc, line)
}

/// What a name is: a user or a group that is stored, a user who is connected to NIGHT, and one who is named anywhere.
pub fn names<T: Tables>(alloc: Global, tables: &mut T, name: &str) -> Result<String> {
    let user = UserId::read(name)?;
    let facts = [
        ("user", tables.has_user(name)?),
        ("group", tables.has_group(name)?),
        ("connected", tables.is_connected(&user, "NIGHT")?),
        ("named", tables.is_named(&user)?),
    ];
    let mut line = String::new(alloc);
    for (word, is_so) in facts {
        if is_so {
            add_word(&mut line, word)?;
        }
    }
    ended(alloc, line)
}

/// The level of an entry of a profile: its pattern and id, and its console if it has one.
pub fn level<T: Tables>(alloc: Global, tables: &mut T, key: &str) -> Result<String> {
    let (pattern, rest) = key.split_once(' ').context("no id")?;
    let (id, console) = rest.split_once(' ').unwrap_or((rest, ""));
    let (pattern, id) = (Pattern::read(pattern)?, EntryId::read(id)?);
    let console = match console {
        "" => None,
        console => Some(ConsoleName::read(console)?),
    };
    match tables.level_for(CLASS, &pattern, &id, console.as_ref())? {
        Some(level) => Ok(format!(in alloc; "{level}\n")?),
        None => nothing(alloc),
    }
}

/// A profile and its access list, each loaded by its key: a class and a pattern.
pub fn profile<T: Tables>(alloc: Global, tables: &mut T, key: &str) -> Result<String> {
    let (class, pattern) = place_of(key)?;
    let Some(profile) = tables.definition(alloc, class, &pattern)? else {
        return nothing(alloc);
    };
    let entries = tables.entries(alloc, class, &pattern, u32::MAX)?;
    let mut rows = Vec::new(alloc);
    rows.push(profile_row(&profile))?;
    add_entries(&mut rows, class, pattern, entries.as_slice())?;
    records_of(alloc, rows.as_slice())
}

/// Whether a class is active.
pub fn active<T: Tables>(alloc: Global, tables: &mut T, class: &str) -> Result<String> {
    answer_line(alloc, tables.is_active(class_of(class)?)?)
}

/// The definitions of a class, without their access lists.
pub fn definitions<T: Tables>(alloc: Global, tables: &mut T, class: &str) -> Result<String> {
    let definitions = tables.definitions(alloc, class_of(class)?)?;
    ended(alloc, profiles_records(alloc, definitions.as_slice())?)
}

/// The profiles of a class, with their access lists.
pub fn profiles<T: Tables>(alloc: Global, tables: &mut T, class: &str) -> Result<String> {
    let profiles = tables.profiles(alloc, class_of(class)?)?;
    ended(alloc, profiles_records(alloc, profiles.as_slice())?)
}

/// The entries of a profile, as many as requested.
pub fn entries<T: Tables>(alloc: Global, tables: &mut T, key: &str) -> Result<String> {
    let (pattern, most) = key.split_once(' ').context("no number of entries")?;
    let pattern = Pattern::read(pattern)?;
    let entries = tables.entries(alloc, CLASS, &pattern, most.parse::<u32>()?)?;
    let mut rows = Vec::new(alloc);
    add_entries(&mut rows, CLASS, pattern, entries.as_slice())?;
    ended(alloc, records_of(alloc, rows.as_slice())?)
}

/// Rows of the account: the first number, and how many at most. Each with its number and its code.
pub fn account<T: Tables>(alloc: Global, tables: &mut T, key: &str) -> Result<String> {
    let (from, count) = key.split_once(' ').context("no count")?;
    let page = tables.account(alloc, from.parse::<u64>()?, count.parse::<u32>()?)?;
    let mut line = String::new(alloc);
    for (number, row) in page.as_slice() {
        add_word(&mut line, number.to_string(alloc)?.as_str())?;
        add_word(&mut line, row.code.as_str())?;
    }
    ended(alloc, line)
}

/// The records of a batch.
pub fn batch<T: Tables>(alloc: Global, tables: &mut T, number: &str) -> Result<String> {
    match tables.batch(alloc, number.parse::<u32>()?)? {
        Some(rows) => records_of(alloc, rows.as_slice()),
        None => nothing(alloc),
    }
}
