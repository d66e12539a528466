//! Cases of policies. Each case is a subject and its words, a question about the policy that the rows before it made;
//! what is printed is the answer.
mod faults;
mod levels;
mod plain;

use self::faults::fault_of;
use self::levels::compared;
use crate::policy_file::{HEADER, reported, spelled};
use crate::words::{class_in, first_word, level_in};
use anyhow::{Context, Result, bail};
use opc_import::read::read_policy;
use opc_names::name::{ConsoleName, Pattern, Resource, UserId};
use opc_policy::explained::explain;
use opc_policy::plain::deciding_by_pairs;
use opc_policy::{ClassProfiles, search};
use opc_policy_members::policy::Policy;
use opc_policy_members::profile::Profile;
use opc_terms::entry_id::EntryId;
use opc_terms::fault::Fault;
use std::alloc::{AllocError, Global};

/// The answer to a case over a policy, which `new` and `row` change. An unknown subject ends the program.
pub fn answer(alloc: Global, policy: &mut Policy, case: &str) -> Result<String> {
    let (subject, rest) = first_word(case);
    match subject {
        "new" => {
            *policy = Policy::new(alloc);
            Ok(String::from_str(alloc, "new")?)
        }
        "row" => take(alloc, policy, rest),
        "explain" => explained(alloc, policy, rest),
        "search" => searched(alloc, policy, rest),
        "entries" => entries_of(alloc, policy, rest),
        "id" => id_of(alloc, rest),
        "levels" => compared(alloc),
        "fault" => Ok(spelled(alloc, &fault_of(rest)?)?),
        _ => bail!("no subject"),
    }
}

/// Takes a row, written as in a policy file.
fn take(alloc: Global, policy: &mut Policy, record: &str) -> Result<String> {
    let file = format!(in alloc; "{HEADER}{record}\n")?;
    let rows = match read_policy(alloc, file.as_str()) {
        Ok(rows) => rows,
        Err(fault) => return reported(alloc, &Fault::from(fault)),
    };
    for row in rows.as_slice() {
        if let Err(fault) = policy.take(alloc, row) {
            return reported(alloc, &fault);
        }
    }
    Ok(String::from_str(alloc, "taken")?)
}

/// Why a user may or may not have a level of access: class, resource, user, level, and perhaps a console.
fn explained(alloc: Global, policy: &Policy, words: &str) -> Result<String> {
    let (class, rest) = first_word(words);
    let (resource, rest) = first_word(rest);
    let (user, rest) = first_word(rest);
    let (level, console) = first_word(rest);
    let (class, resource) = (class_in(class)?, Resource::read(resource)?);
    let (user, level) = (UserId::read(user)?, level_in(level)?);
    let console = if console.is_empty() {
        None
    } else {
        Some(ConsoleName::read(console)?)
    };
    match explain(
        alloc,
        policy,
        class,
        &resource,
        &user,
        console.as_ref(),
        level,
    ) {
        Ok(explained) => {
            let text = explained.to_string(alloc)?;
            Ok(in_one_line(alloc, text.as_str())?)
        }
        Err(fault) => reported(alloc, &fault),
    }
}

fn in_one_line(alloc: Global, text: &str) -> Result<String, AllocError> {
    let mut line = String::new(alloc);
    for part in text.lines() {
        if !line.is_empty() {
            line.push_str("; ")?;
        }
        line.push_str(part)?;
    }
    Ok(line)
}

/// The profile that decides, by heads, in the order of the patterns, and by pairs, and what was read for it: class,
/// resource.
fn searched(alloc: Global, policy: &mut Policy, words: &str) -> Result<String> {
    let (class, resource) = first_word(words);
    let (class, resource) = (class_in(class)?, Resource::read(resource)?);
    let found = search(policy, class, &resource)?;
    let first = policy.first(class, &resource)?;
    let profiles = policy.all(alloc, class)?;
    let by_pairs = deciding_by_pairs(profiles.as_slice(), class, &resource);
    Ok(format!(in alloc;
        "{} RANGES {} ROWS {}; {} ROWS {}; {}",
        pattern_of(found.profile.as_ref()),
        found.ranges,
        found.rows,
        pattern_of(first.profile.as_ref()),
        first.rows,
        pattern_of(by_pairs)
    )?)
}

fn pattern_of(profile: Option<&Profile>) -> &str {
    match profile {
        Some(profile) => profile.pattern.text(),
        None => "-",
    }
}

/// The access list of a profile: class, pattern.
fn entries_of(alloc: Global, policy: &Policy, words: &str) -> Result<String> {
    let (class, pattern) = first_word(words);
    let (class, pattern) = (class_in(class)?, Pattern::read(pattern)?);
    let profile = policy.profiles.get(class, &pattern).context("no profile")?;
    let mut list = String::new(alloc);
    for entry in profile.entries.as_slice() {
        if !list.is_empty() {
            list.push_str("; ")?;
        }
        list.push_str(entry.id.text())?;
        list.push_str(" ")?;
        list.push_str(entry.level.text())?;
        if let Some(console) = &entry.when {
            list.push_str(" WHEN ")?;
            list.push_str(console.text())?;
        }
    }
    Ok(list)
}

/// A text as the id of an entry.
fn id_of(alloc: Global, text: &str) -> Result<String> {
    match EntryId::read(text) {
        Ok(id) => Ok(String::from_str(alloc, id.text())?),
        Err(fault) => Ok(fault.to_string(alloc)?),
    }
}
