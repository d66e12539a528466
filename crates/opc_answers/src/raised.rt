//! Users whose level an entry for one console alone raises.
ghost use Rattle.std.specs.Prelude.{◌≡◌, IfOk};
ghost use Rattle.std.specs.List.{list_any};
ghost use Rattle.std.specs.Option.{option_copied};
ghost use Rattle.opc_answers.specs.Who.{is_for, is_named, is_named_by, is_raised, named};

use crate::lines::UserLine;
use opc_board::rows::ConsoleRow;
use opc_names::name::ConsoleName;
use opc_policy_members::entry::Entry;
use opc_policy_members::profile::Profile;
use std::alloc::{AllocError, Global};

/// Whether an entry is for this console alone.
fn is_for(entry: &Entry, name: &ConsoleName) -> bool
    ensures { result ≡ is_for name.now entry.now }
{
    entry.when == Some(*name)
}

/// Whether one of these entries is for this console alone.
fn has_entry_for(entries: &[Entry], name: &ConsoleName) -> bool
    ensures { result ≡ list_any (is_for name.now) entries.now }
{
    entries.iter().any(|entry| is_for(entry, name))
}

/// Whether an entry of the profile that decides is for this console alone.
fn is_named(decided: Option<&Profile>, console: &ConsoleRow) -> bool
    ensures { result ≡ is_named (option_copied decided.entry) console.now }
{
    match decided {
        Some(profile) => has_entry_for(profile.entries.as_slice(), &console.name),
        None => false,
    }
}

/// Whether an entry of either profile is for this console alone.
fn is_named_by(decided: Option<&Profile>, line: Option<&Profile>, console: &ConsoleRow) -> bool
    ensures { result ≡ is_named_by (option_copied decided.entry) (option_copied line.entry) console.now }
{
    is_named(decided, console) || is_named(line, console)
}

/// The consoles that entries of the profiles that decide are for: about a command, and about its line.
pub fn named(
    alloc: Global,
    decided: Option<&Profile>,
    line: Option<&Profile>,
    consoles: &[ConsoleRow],
) -> Result<Vec<ConsoleRow>, AllocError>
    ensures { IfOk result (λ list. list.items ≡ named (option_copied decided.entry) (option_copied line.entry)
        consoles.now) }
{
    let mut list = Vec::new(alloc);
    for console in consoles {
        if is_named_by(decided, line, console) {
            list.push(*console)?;
        }
    }
    Ok(list)
}

/// Whether an entry for one console alone gives the level.
pub fn is_raised(line: &UserLine) -> bool
    ensures { result ≡ is_raised line.now }
{
    match line.held {
        Some(held) => held.when.is_some(),
        None => false,
    }
}
