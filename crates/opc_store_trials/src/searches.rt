//! Searches over a policy in memory, and what a search found, as lines.
use crate::policy_loads::class_of;
use crate::records::{add_profile, profile_row, profiles_records, records_of, rows_in};
use anyhow::{Result, bail};
use opc_names::class::Class;
use opc_names::name::Resource;
use opc_policy::source::{ProfileSource, Taken};
use opc_policy::{ClassProfiles, Found, search};
use opc_policy_members::policy::Policy;
use std::alloc::Global;

/// Both classes.
pub const CLASSES: [Class; 2] = [Class::Opercmds, Class::Console];

/// The name that is searched for at each head.
pub const NAME: &str = "MVS.CANCEL.JOB.PAYROLL";

/// The head of a word; `-` is the empty one.
pub fn head_of(word: &str) -> &str {
    if word == "-" { "" } else { word }
}

/// The policy of the rows of a policy file, taken one after another with no table between.
fn policy_of(alloc: Global, file: &str) -> Result<Policy> {
    let mut policy = Policy::new(alloc);
    for row in rows_in(alloc, file)?.as_slice() {
        policy.take(alloc, row)?;
    }
    Ok(policy)
}

/// What a search over the policy of a file finds.
pub fn in_memory(alloc: Global, file: &str, kind: &str, key: &str) -> Result<String> {
    let mut policy = policy_of(alloc, file)?;
    match kind {
        "deciding" | "listed" => {
            found_in_memory(alloc, &mut policy, &Resource::read(key)?, kind == "listed")
        }
        "head" => {
            let name = Resource::read(NAME)?;
            taken_lines(
                alloc,
                &policy.first_in(Class::Opercmds, head_of(key), &name)?,
            )
        }
        "order" => {
            let name = Resource::read(key)?;
            taken_lines(alloc, &policy.first(Class::Opercmds, &name)?)
        }
        "all" => {
            let profiles = policy.all(alloc, class_of(key)?)?;
            profiles_records(alloc, profiles.as_slice())
        }
        _ => bail!("no search: {kind}"),
    }
}

/// What the search of policies finds in both classes, with its access list or without.
fn found_in_memory(
    alloc: Global,
    policy: &mut Policy,
    name: &Resource,
    listed: bool,
) -> Result<String> {
    let mut lines = String::new(alloc);
    for class in CLASSES {
        let found = search(policy, class, name)?;
        let returned = if listed {
            listed_lines(alloc, &found)?
        } else {
            found_lines(alloc, &found)?
        };
        lines.push_str(returned.as_str())?;
    }
    Ok(lines)
}

/// What a search found: the profile but without its access list, how many heads were searched, and how many profiles
/// read.
pub fn found_lines(alloc: Global, found: &Found) -> Result<String> {
    let mut rows = Vec::new(alloc);
    if let Some(profile) = &found.profile {
        rows.push(profile_row(profile))?;
    }
    let record = records_of(alloc, rows.as_slice())?;
    Ok(format!(in alloc; "{record}{} {}\n", found.ranges, found.rows)?)
}

/// The same with the access list.
pub fn listed_lines(alloc: Global, found: &Found) -> Result<String> {
    let mut rows = Vec::new(alloc);
    if let Some(profile) = &found.profile {
        add_profile(&mut rows, profile)?;
    }
    let records = records_of(alloc, rows.as_slice())?;
    Ok(format!(in alloc; "{records}{} {}\n", found.ranges, found.rows)?)
}

/// What was found: the profile with its access list, and how many profiles were read.
pub fn taken_lines(alloc: Global, taken: &Taken) -> Result<String> {
    let mut rows = Vec::new(alloc);
    if let Some(profile) = &taken.profile {
        add_profile(&mut rows, profile)?;
    }
    let records = records_of(alloc, rows.as_slice())?;
    Ok(format!(in alloc; "{records}{}\n", taken.rows)?)
}
