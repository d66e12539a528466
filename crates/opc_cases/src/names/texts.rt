//! Names: read, compared, shown and put together.
use anyhow::{Context, Result, anyhow};
use opc_names::name::{ConsoleName, Name, NameKind, Resource, UnitName, UserId};
use opc_names::rule::NameFault;
use std::alloc::Global;
use std::fmt::Display;

/// The longest resource to which a name may be added.
const LONGEST_PREFIX: usize = 30;

/// The name that was read, or the fault.
pub fn read<N: Display + Drop>(alloc: Global, outcome: Result<N, NameFault>) -> Result<String> {
    match outcome {
        Ok(name) => Ok(format!(in alloc; "{name}")?),
        Err(fault) => Ok(format!(in alloc; "{fault}")?),
    }
}

/// The order of two names, and whether they are equal.
pub fn compare<K: NameKind<N>, const N: usize>(alloc: Global, names: &str) -> Result<String> {
    let (ours, theirs) = names.split_once(' ').context("no second name")?;
    let (ours, theirs) = (Name::<K, N>::read(ours)?, Name::<K, N>::read(theirs)?);
    let order = ours.cmp(&theirs);
    let equal = ours == theirs;
    Ok(format!(in alloc; "{order:?}, equal {equal}")?)
}

/// A name as `Display` pads it, and as `Debug` shows it.
pub fn shown(alloc: Global, name: &UserId) -> Result<String> {
    Ok(format!(in alloc; "{name:>10}|{name:?}")?)
}

/// A resource with further names after it, each after the word for its kind.
pub fn with(alloc: Global, words: &str) -> Result<String> {
    let mut words = words.split(' ');
    let mut resource = Resource::read(words.next().unwrap_or(""))?;
    while let Some(kind) = words.next() {
        let name = words.next().context("a kind without a name")?;
        resource = longer(&resource, kind, name)?;
    }
    Ok(format!(in alloc; "{resource}")?)
}

fn longer(resource: &Resource, kind: &str, name: &str) -> Result<Resource> {
    if resource.text().len() > LONGEST_PREFIX {
        return Err(anyhow!("no room after {resource}"));
    }
    match kind {
        "unit" => Ok(resource.with(&UnitName::read(name)?)),
        "user" => Ok(resource.with(&UserId::read(name)?)),
        "console" => Ok(resource.with(&ConsoleName::read(name)?)),
        _ => Err(anyhow!("no kind: {kind}")),
    }
}
