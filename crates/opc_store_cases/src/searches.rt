//! Searches over the tables find and count what searches over the policy in memory do.
use crate::memory::Fresh;
use anyhow::{Context, Result, bail};
use opc_names::class::Class;
use opc_names::name::Resource;
use opc_policy_members::profile::Profile;
use opc_store_trials::records::profiles_records;
use opc_store_trials::searches::{
    CLASSES, NAME, found_lines, head_of, in_memory, listed_lines, taken_lines,
};
use std::alloc::Global;

/// Whether a search over the tables gives what one over a policy in memory gives; otherwise both results. For some
/// words, what is found and counted.
pub fn searched<T: Fresh>(
    alloc: Global,
    tables: &mut T,
    base: &str,
    words: &str,
) -> Result<String> {
    let (kind, key) = words.split_once(' ').context("no search")?;
    match kind {
        "read" => return profiles_read(alloc, tables, &Resource::read(key)?),
        "counts" => return counts(alloc, tables, &Resource::read(key)?),
        "first" => return first(alloc, tables, &Resource::read(key)?),
        _ => {}
    }
    let found = in_tables(alloc, tables, kind, key)?;
    let wanted = in_memory(alloc, base, kind, key)?;
    if found.as_str() == wanted.as_str() {
        return Ok(String::from_str(alloc, "as in memory\n")?);
    }
    Ok(format!(in alloc; "in the tables:\n{found}in memory:\n{wanted}")?)
}

fn in_tables<T: Fresh>(alloc: Global, tables: &mut T, kind: &str, key: &str) -> Result<String> {
    match kind {
        "deciding" => found_without_list(alloc, tables, &Resource::read(key)?),
        "listed" => found_with_list(alloc, tables, &Resource::read(key)?),
        "head" => {
            let name = Resource::read(NAME)?;
            taken_lines(
                alloc,
                &tables.first_with_head(Class::Opercmds, head_of(key), &name)?,
            )
        }
        "order" => {
            let name = Resource::read(key)?;
            taken_lines(
                alloc,
                &tables.first_in_order(alloc, Class::Opercmds, &name)?,
            )
        }
        "all" => {
            let profiles = tables.all_in_order(alloc, Class::read(key).context("no class")?)?;
            profiles_records(alloc, profiles.as_slice())
        }
        _ => bail!("no search: {kind}"),
    }
}

/// How many profiles are read to find the one that decides a name.
fn profiles_read<T: Fresh>(alloc: Global, tables: &mut T, name: &Resource) -> Result<String> {
    let found = tables.find_deciding(alloc, Class::Opercmds, name)?;
    Ok(format!(in alloc; "{}\n", found.rows)?)
}

/// What a search over the tables finds in both classes, without its access list.
fn found_without_list<T: Fresh>(alloc: Global, tables: &mut T, name: &Resource) -> Result<String> {
    let mut lines = String::new(alloc);
    for class in CLASSES {
        let found = tables.find_deciding(alloc, class, name)?;
        lines.push_str(found_lines(alloc, &found)?.as_str())?;
    }
    Ok(lines)
}

/// What a search over the tables finds in both classes, with its access list.
fn found_with_list<T: Fresh>(alloc: Global, tables: &mut T, name: &Resource) -> Result<String> {
    let mut lines = String::new(alloc);
    for class in CLASSES {
        let found = tables.search_for(class, name)?;
        lines.push_str(listed_lines(alloc, &found)?.as_str())?;
    }
    Ok(lines)
}

/// The pattern that decides, how many heads were searched, and how many profiles read: by the store as a source of
/// profiles, and by the tables, which agree.
fn counts<T: Fresh>(alloc: Global, tables: &mut T, name: &Resource) -> Result<String> {
    let found = tables.search_for(Class::Opercmds, name)?;
    let asked = tables.find_deciding(alloc, Class::Opercmds, name)?;
    if (found.ranges, found.rows) != (asked.ranges, asked.rows) {
        bail!("other counts of the tables");
    }
    let pattern = pattern_of(&found.profile);
    Ok(format!(in alloc; "{pattern} {} {}\n", found.ranges, found.rows)?)
}

/// The first pattern that covers, in the order of the patterns, and how many profiles were read.
fn first<T: Fresh>(alloc: Global, tables: &mut T, name: &Resource) -> Result<String> {
    let taken = tables.first_in_order(alloc, Class::Opercmds, name)?;
    let pattern = pattern_of(&taken.profile);
    Ok(format!(in alloc; "{pattern} {}\n", taken.rows)?)
}

fn pattern_of(profile: &Option<Profile>) -> &str {
    match profile {
        Some(profile) => profile.pattern.text(),
        None => "-",
    }
}
