//! The entries of groups, by their places.
ghost use Rattle.std.specs.Prelude.{◌≡◌, ℕ, List, IfOk, Some, None, filter_map, if◌then◌else◌};
ghost use Rattle.std.specs.List.{list_any};
ghost use Rattle.std.specs.Str.{bytes_eq};
ghost use Rattle.opc_check_notes.specs.declared.names.Given.TheVariants as given;
ghost use Rattle.opc_check_notes.specs.declared.numbered.NumberedRow.{NumberedRow as Numbered};
ghost use Rattle.opc_check_notes.specs.Entries.{HasPlaced, all_placed, placed_by};
ghost use Rattle.opc_check_notes.specs.Named.{HasNames};

use crate::kinds::ByKind;
use crate::names::SortedNames;
use crate::numbered::NumberedRow;
use crate::sorted_pairs::{SortedPairs, push_if};
use opc_import::kind::Kind;
use opc_names::class::Class;
use opc_names::name::{ConsoleName, Pattern};
use opc_policy_members::row::Row;
use opc_terms::entry_id::EntryId;
use std::alloc::{AllocError, Global};

/// Where an entry is: in which profile, and for which console if it is for one.
#[derive(Clone, Copy, PartialEq, Eq, PartialOrd, Ord)]
pub struct EntryPlace {
    pub class: Class,
    pub pattern: Pattern,
    pub when: Option<ConsoleName>,
}

/// The groups that have an entry at each place.
pub(crate) type GroupEntries = SortedPairs<EntryPlace, EntryId>;

/// A place and a group, if somebody is in the group.
fn of_members(
    members: &SortedNames,
    place: EntryPlace,
    id: EntryId,
) -> Option<(EntryPlace, EntryId)>
    ensures { result ≡ if list_any (λ (n : List ℕ). bytes_eq n id) members.now then Some (place, id) else None }
{
    if members.has(id.text()) {
        Some((place, id))
    } else {
        None
    }
}

/// The place of an entry and whom it is for, if this is a group that somebody is in.
fn placed(members: &SortedNames, row: &Row) -> Option<(EntryPlace, EntryId)>
    ensures { result ≡ placed_by members.now row.now }
{
    match *row {
        Row::Permit {
            class,
            pattern,
            id,
            when,
            ..
        } => of_members(
            members,
            EntryPlace {
                class,
                pattern,
                when,
            },
            id,
        ),
        // No other row is of an access list.
        _ => None,
    }
}

fn placed_among(
    alloc: Global,
    rows: &[NumberedRow],
    members: &SortedNames,
) -> Result<Vec<(EntryPlace, EntryId)>, AllocError>
    ensures { IfOk result (λ list. list.items
        ≡ filter_map (λ (at : Numbered). placed_by members.now at.row) rows.now) }
{
    let mut list = Vec::new(alloc);
    for at in rows {
        push_if(&mut list, placed(members, &at.row))?;
    }
    Ok(list)
}

fn all_placed(
    alloc: Global,
    rows: &ByKind,
    members: &SortedNames,
) -> Result<Vec<(EntryPlace, EntryId)>, AllocError>
    requires { HasNames rows.now given.ConnectedGroup members.now }
    ensures { IfOk result (λ list. list.items ≡ all_placed rows.now) }
{
    placed_among(alloc, rows.of(Kind::Permit), members)
}

/// The groups that have an entry at each place, where these are the names of those that somebody is in.
pub(crate) fn group_entries(
    alloc: Global,
    rows: &ByKind,
    members: &SortedNames,
) -> Result<GroupEntries, AllocError>
    requires { HasNames rows.now given.ConnectedGroup members.now }
    ensures { IfOk result (HasPlaced rows.now) }
{
    SortedPairs::sorted(all_placed(alloc, rows, members)?)
}
