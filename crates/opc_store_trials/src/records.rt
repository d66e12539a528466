//! Rows of the policy, as records of a policy file.
use anyhow::{Context, Result, bail};
use opc_import::fault::ImportFault;
use opc_import::read::read_policy;
use opc_import::write::write_policy;
use opc_names::class::Class;
use opc_names::name::Pattern;
use opc_policy_members::entry::Entry;
use opc_policy_members::profile::Profile;
use opc_policy_members::row::Row;
use std::alloc::Global;

/// The first row of a policy file.
pub const HEADER: &str = "kind,class,name,id,value,owner,flags,digest,when,restricted\n";

/// The rows of a policy file.
pub fn rows_in(alloc: Global, file: &str) -> Result<Vec<Row>> {
    match read_policy(alloc, file) {
        Ok(rows) => Ok(rows),
        Err(ImportFault::NoMemory) => bail!("out of memory"),
        Err(_) => bail!("no policy: {file}"),
    }
}

/// The row of a record.
pub fn row_in(alloc: Global, record: &str) -> Result<Row> {
    let file = format!(in alloc; "{HEADER}{record}\n")?;
    rows_in(alloc, file.as_str())?
        .as_slice()
        .first()
        .copied()
        .context("no row")
}

/// The records of rows, a line for each.
pub fn records_of(alloc: Global, rows: &[Row]) -> Result<String> {
    let file = write_policy(alloc, rows)?;
    let (_, records) = file.as_str().split_once('\n').context("no header")?;
    Ok(String::from_str(alloc, records)?)
}

/// The row of a profile, without its access list.
pub fn profile_row(profile: &Profile) -> Row {
    Row::Profile {
        class: profile.class,
        pattern: profile.pattern,
        uacc: profile.uacc,
        owner: profile.owner,
        warning: profile.warning,
    }
}

/// The row of an entry of a profile.
pub fn entry_row(class: Class, pattern: Pattern, entry: &Entry) -> Row {
    Row::Permit {
        class,
        pattern,
        id: entry.id,
        level: entry.level,
        when: entry.when,
    }
}

/// Adds the rows of an access list.
pub fn add_entries(
    rows: &mut Vec<Row>,
    class: Class,
    pattern: Pattern,
    entries: &[Entry],
) -> Result<()> {
    for entry in entries {
        rows.push(entry_row(class, pattern, entry))?;
    }
    Ok(())
}

/// Adds the rows of a profile and its access list.
pub fn add_profile(rows: &mut Vec<Row>, profile: &Profile) -> Result<()> {
    rows.push(profile_row(profile))?;
    add_entries(
        rows,
        profile.class,
        profile.pattern,
        profile.entries.as_slice(),
    )
}

/// The records of profiles and their access lists.
pub fn profiles_records(alloc: Global, profiles: &[Profile]) -> Result<String> {
    let mut rows = Vec::new(alloc);
    for profile in profiles {
        add_profile(&mut rows, profile)?;
    }
    records_of(alloc, rows.as_slice())
}
