//! Levels, classes, command groups and authorities.
use crate::words::level_in;
use anyhow::{Context, Result};
use opc_names::auth::Auth;
use opc_names::group::Group;
use opc_names::level::Level;
use std::alloc::Global;
use std::fmt::{Debug, Display};

static LEVELS: [Level; 5] = [
    Level::None,
    Level::Read,
    Level::Update,
    Level::Control,
    Level::Alter,
];

static GROUPS: [Group; 5] = [
    Group::Master,
    Group::Info,
    Group::Sys,
    Group::Io,
    Group::Cons,
];

/// What was read, and how it is written.
pub fn read<T: Debug + Display + Drop>(alloc: Global, found: Option<T>) -> Result<String> {
    match found {
        Some(value) => Ok(format!(in alloc; "{value:?}, written {value}")?),
        None => Ok(String::from_str(alloc, "none")?),
    }
}

/// The levels that a level includes.
pub fn includes(alloc: Global, text: &str) -> Result<String> {
    let level = level_in(text)?;
    let mut included = Vec::new(alloc);
    for needed in &LEVELS {
        if level.includes(*needed) {
            included.push(needed.text())?;
        }
    }
    Ok(included.join(alloc, " ")?)
}

/// The command groups that an authority enters.
pub fn enters(alloc: Global, text: &str) -> Result<String> {
    let auth = Auth::read(text).context("no authority")?;
    let mut entered = Vec::new(alloc);
    for group in &GROUPS {
        if auth.enters(*group) {
            entered.push(group.text())?;
        }
    }
    Ok(entered.join(alloc, " ")?)
}
